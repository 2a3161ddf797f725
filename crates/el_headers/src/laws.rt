// What holds of found headers and of paths.
ghost use Rattle.std.specs.Prelude.{◌≡◌, ◌≢◌, List, [], ◌++◌, ◌∷◌, false, Contains};
ghost use Rattle.el_base.specs.declared.hash.Hash32 as hash_shape;
ghost use Rattle.el_chain.specs.declared.node.Node as shape;
ghost use Rattle.el_chain.specs.Headers.{IsFound, IsPath, added, names_none};
ghost use Rattle.el_chain.specs.Records.{IsNode};

/// At most one path leads to a hash. It does nothing when it runs.
pub fn path_is_one()
    ensures { (found : List shape.Node) (h : hash_shape.Hash32) (one other : List shape.Node) → IsFound found
        → IsPath found h one → IsPath found h other → one ≡ other }
{}

/// A path is still one after any node was added, and it goes on to each found node that names its end, but
/// the genesis. So a node that waited is reached as soon as the one that it names is. It does nothing when
/// it runs.
pub fn paths_stay_and_go_on()
    ensures stay { (found : List shape.Node) (h : hash_shape.Hash32) (path : List shape.Node) (n : shape.Node)
        → IsPath found h path → IsPath (added found n) h path }
    ensures more { (found : List shape.Node) (h : hash_shape.Hash32) (path : List shape.Node) (n : shape.Node)
        → IsPath found h path → Contains found n → names_none n ≡ false → n.header.previous ≡ h
        → IsPath found n.hash (path ++ n ∷ []) }
{}

/// No nodes are found nodes, and found nodes stay so where a node is added: no hash stands twice, and one
/// node alone names no block before it. It does nothing when it runs.
pub fn found_stays_found()
    ensures none { IsFound [] }
    ensures more { (found : List shape.Node) (n : shape.Node) → IsFound found → IsNode n
        → IsFound (added found n) }
{}
