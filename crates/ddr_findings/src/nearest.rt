//! The key that is nearest to a name that is none.
ghost use Rattle.std.specs.Prelude.{◌≡◌, IfOk};
ghost use Rattle.ddr_findings.specs.Nearest.{distance, nearest};

use ddr_timing::key::Key;
use std::alloc::{AllocError, Global};
use strsim::levenshtein;

/// The nearest of `version` and these keys by Levenshtein's distance, of several the first.
#[tactic(auto, unfolding(crate::specs::Nearest::nearest))]
pub(crate) fn nearest(alloc: Global, keys: &[Key], name: &str) -> Result<Key, AllocError>
    ensures { IfOk result (λ key. key ≡ nearest keys.now name.now) }
{
    let mut best = Key::Version;
    let mut least = distance(alloc, name, best)?;
    for key in keys {
        let far = distance(alloc, name, *key)?;
        if far < least {
            best = *key;
            least = far;
        }
    }
    Ok(best)
}

#[tactic(auto, unfolding(crate::specs::Nearest::distance))]
fn distance(alloc: Global, name: &str, key: Key) -> Result<usize, AllocError>
    ensures { IfOk result (λ far. far ≡ distance name.now key) }
{
    levenshtein(alloc, name, key.name())
}
