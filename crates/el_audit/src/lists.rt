// Lists that are kept by script hashes.
ghost use Rattle.std.specs.Prelude.{◌≡◌, [], ◌∷◌, IfOk, OnOk, if◌then◌else◌};
ghost use Rattle.std.specs.List.{list_any};
ghost use Rattle.std.specs.Option.{unwrap_or};
ghost use Rattle.el_base.specs.declared.hash.Hash32 as shape;
ghost use Rattle.el_block.specs.Blocks.{AllDiffer};
ghost use Rattle.el_chain.specs.Headers.{same_hash};
ghost use Rattle.el_audit.specs.within.Lists.{is_in_set, list_of, grown, AreLists};

use el_base::{Hash32, Listed, OutOfMemory};
use el_chain::Entry;
use indexmap::{IndexMap, IndexSet};
use std::alloc::Global;

/// An empty list for each of the script hashes.
pub fn empty_lists<T: Drop>(
    alloc: Global,
    names: &IndexSet<Hash32>,
) -> Result<IndexMap<Hash32, Listed<T>>, OutOfMemory>
    ensures { IfOk result (λ lists. AreLists (is_in_set names.now) lists (λ s. [])) }
{
    let mut lists = IndexMap::new(alloc);
    for name in names.as_slice() {
        lists.insert(*name, Listed::new(alloc))?;
    }
    Ok(lists)
}

/// Adds a value at the end of the script hash's list, if it has one.
pub fn add_to<T: Drop>(
    lists: &mut IndexMap<Hash32, Listed<T>>,
    script: &Hash32,
    value: T,
) -> Result<(), OutOfMemory>
    ensures { OnOk result ((s : shape.Hash32) → list_of lists.new s
        ≡ (if same_hash script.now s then grown (list_of lists.old s) (value ∷ [])
        else list_of lists.old s)) }
{
    if let Some(list) = lists.get_mut(script) {
        list.push(value)?;
    }
    Ok(())
}

/// Adds the entry at the end of the list of each of these script hashes that has one.
pub fn list_entry(
    lists: &mut IndexMap<Hash32, Listed<Entry>>,
    scripts: &[Hash32],
    entry: Entry,
) -> Result<(), OutOfMemory>
    requires { AllDiffer scripts.now }
    ensures { OnOk result ((s : shape.Hash32) → list_of lists.new s
        ≡ grown (list_of lists.old s)
        (if list_any (same_hash s) scripts.now then entry ∷ [] else [])) }
{
    for script in scripts {
        add_to(lists, script, entry)?;
    }
    Ok(())
}

/// The script hash's list; nothing where it has none.
pub fn values_of<'a, T>(lists: &'a IndexMap<Hash32, Listed<T>>, script: &Hash32) -> &'a [T]
    ensures { result.now ≡ unwrap_or (list_of lists.now script.now) [] }
{
    match lists.get(script) {
        Some(list) => list.as_slice(),
        None => &[],
    }
}
