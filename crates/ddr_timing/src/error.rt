//! Why a configuration's text is refused.
use crate::key::Key;
use thiserror::Error;

/// Why a configuration's text is refused. Where several refusals apply, the first of this order is
/// answered; of several keys or relations the first.
#[derive(Clone, Copy, Debug, PartialEq, Eq, Error)]
pub enum ConfigError {
    /// The text is no TOML document.
    #[error("the configuration is no TOML text")]
    Syntax,
    /// The key is not there.
    #[error("the configuration has no key `{key}`")]
    Missing { key: Key },
    /// A key at the top level is none of a configuration's.
    #[error("the configuration has a key that is not known")]
    UnknownKey,
    /// The key's value is outside its range, or of another type.
    #[error("the value of `{key}` is out of its range")]
    Range { key: Key },
    /// The key's value is in its range, but no power of two.
    #[error("the value of `{key}` is no power of two")]
    NotPowerOfTwo { key: Key },
    /// Values that have to fit one another do not. `n` numbers the relation, from 1:
    ///
    /// 1. `ccd_s >= 4`
    /// 2. `ccd_l >= ccd_s`
    /// 3. `rrd_l >= rrd_s`
    /// 4. `rtw >= 4` and `rtw + cwl >= cl + 4`
    /// 5. `max(max(ras, cwl + 4 + wr, rtp) + rp, rfc) + 4 <= refi`
    /// 6. `low < high`
    /// 7. `high <= writes`
    #[error("relation {n} among the values is broken")]
    Relation { n: u32 },
    /// Memory ran out. It may stand in place of any answer but a refusal for a blank text.
    #[error("out of memory")]
    OutOfMemory,
}
