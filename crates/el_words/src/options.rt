// The options of a command line, where they lie.
ghost use Rattle.std.specs.Prelude.{◌≡◌, ◌<◌, List, ◌∷◌, [], map, length, Contains, option_map, IfSome, IfNone, IsTrue, ◌↔◌, MatchOption};
ghost use Rattle.el_words.specs.Options.{Word, Given, IsValue, value_of, words_of};
ghost use Rattle.el_words.specs.Words.{texts};
ghost use Rattle.el_words.specs.within.Reading.{GiveOptions};

// The first word, and the words after it.
pub(crate) fn first_of(words: &[String]) -> Option<(&str, &[String])>
    ensures found { IfSome result (λ r. texts words.now ≡ r.0.now ∷ texts r.1.now) }
    ensures shorter { IfSome result (λ r. length r.1.now < length words.now) }
    ensures none { IfNone result (texts words.now ≡ []) }
{
    match words {
        [] => None,
        [first, rest @ ..] => Some((first.as_str(), rest)),
    }
}

// The first option and its value, and the words after them.
fn pair_of(words: &[String]) -> Option<(&str, &str, &[String])>
    ensures pair { MatchOption result
        ((option value : Word) (more : List Word) → texts words.now ≡ option ∷ value ∷ more → ⊥)
        (λ r. texts words.now ≡ r.0.now ∷ r.1.now ∷ texts r.2.now) }
    ensures shorter { IfSome result (λ r. length r.2.now < length words.now) }
{
    let (option, rest) = first_of(words)?;
    let (value, rest) = first_of(rest)?;
    Some((option, value, rest))
}

// The value of this option, where the words give it.
pub(crate) fn value_in<'a>(words: &'a [String], option: &str) -> Option<&'a str>
    ensures { (given : Given) → texts words.now ≡ words_of given
        → option_map (λ value. value.now) result ≡ value_of option.now given }
{
    let mut rest = words;
    while let Some((name, value, more)) = pair_of(rest) {
        if name == option {
            return Some(value);
        }
        rest = more;
    }
    None
}

// Whether the word can be a value.
fn is_value(word: &str) -> bool
    ensures { IsTrue result ↔ IsValue word.now }
{
    match word.as_bytes() {
        [] => false,
        [first, ..] => *first != b'-',
    }
}

// Whether the word is one of these options.
fn is_among(word: &str, options: &[&str]) -> bool
    ensures { IsTrue result ↔ Contains (map (λ option. option.now) options.now) word.now }
{
    options.contains(&word)
}

// Whether the words give options, each of which is one of these.
pub(crate) fn are_options(words: &[String], options: &[&str]) -> bool
    ensures { IsTrue result ↔ GiveOptions (map (λ option. option.now) options.now) (texts words.now) }
{
    let mut rest = words;
    while let Some((option, value, more)) = pair_of(rest) {
        if !is_among(option, options) || !is_value(value) || value_in(more, option).is_some() {
            return false;
        }
        rest = more;
    }
    rest.is_empty()
}
