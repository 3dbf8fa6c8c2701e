//! The words of a stored session.
ghost use Rattle.std.specs.Prelude.{◌≡◌, ◌∷◌, codes, map, option_map, string_bytes, IfOk};
ghost use Rattle.std.specs.Str.{bytes_eq};
ghost use Rattle.interlock_cli.specs.StoredWords.{stored_named, stored_of, seen_words};

use command_words::read_words;
use ilk_base::Memory;
use std::alloc::Global;

// What a stored session is given.
#[derive(Clone, Copy)]
pub struct StoredWords<'a> {
    pub station: &'a str,
    pub bay: &'a str,
}

// Whether this is the name of the command.
fn is_stored(name: &str) -> bool
    ensures { result ≡ bytes_eq name.now (codes "stored") }
{
    match name {
        "stored" => true,
        _ => false,
    }
}

// What the words `stored STATION BAY FILE` name, of a name and the words after it.
fn stored_named<'a>(name: &str, rest: &[&'a str]) -> Option<StoredWords<'a>>
    ensures { stored_named (name.now ∷ map (λ w. w.now) rest.now) ≡ option_map seen_words result }
{
    let &[station, bay, _] = rest else {
        return None;
    };
    if is_stored(name) {
        Some(StoredWords { station, bay })
    } else {
        None
    }
}

// The words of a stored session, if they are these.
pub(crate) fn read_stored<'a>(
    alloc: Global,
    words: &'a [String],
) -> Result<Option<StoredWords<'a>>, Memory>
    ensures { IfOk result (λ named. stored_of (map string_bytes words.entry.now) ≡ option_map seen_words named) }
{
    match read_words(alloc, words)? {
        Some(row) => Ok(stored_named(row.name, &row.words)),
        None => Ok(None),
    }
}
