//! How some numbers are spread: how many there are of each class, which is a number below 16, or from there on an eighth of what lies
//! between a power of two and the next.
//!
//! Nothing of this crate stands below, and `group` and `text` above.
ghost use Rattle.std.specs.Prelude.{◌≡◌, ◌<◌, ◌≤◌, ◌^◌};
ghost use Rattle.ddr_measure.specs.Distributions.{bound_of, class_of, first_of, last_of, least_of, scale_at, scale_of, with_class, with_value};

/// How many classes there are.
pub const CLASSES: usize = 496;

/// How some numbers are spread. Each count stops at the last one that a `u64` holds.
#[derive(Clone, Copy, Debug, PartialEq, Eq)]
pub struct Distribution {
    /// How many numbers.
    pub count: u64,
    /// All of them together.
    pub sum: u64,
    /// The least of them, 0 where there is none.
    pub least: u64,
    /// The greatest of them, 0 where there is none.
    pub most: u64,
    /// How many there are of each class.
    pub classes: [u64; CLASSES],
}

impl Distribution {
    /// Of no number.
    pub const NONE: Distribution = Distribution {
        count: 0,
        sum: 0,
        least: 0,
        most: 0,
        classes: [0; CLASSES],
    };

    /// Notes a number.
    #[tactic(auto, unfolding(crate::specs::Distributions::with_value))]
    pub fn note(&mut self, value: u64)
        ensures { self.new ≡ with_value value self.old }
    {
        self.least = least_of(self, value);
        self.most = self.most.max(value);
        self.sum = self.sum.saturating_add(value);
        self.count = self.count.saturating_add(1);
        add_one(&mut self.classes, class_of(value));
    }

    /// A number that so many in a thousand of the numbers don't pass: the greatest of the class that tells it. 0 where there is none.
    pub fn bound(&self, thousandths: u64) -> u64
        requires { thousandths ≤ 1000 }
        ensures { result ≡ bound_of thousandths self.now }
    {
        let wanted = u128::from(thousandths) * u128::from(self.count);
        let mut seen: u128 = 0;
        for (class, count) in self.classes.iter().enumerate() {
            seen += u128::from(*count);
            if wanted <= 1000 * seen {
                return last_of(class);
            }
        }
        u64::MAX
    }
}

/// The least number, with one more.
fn least_of(spread: &Distribution, value: u64) -> u64
    ensures { result ≡ least_of spread.now value }
{
    if spread.count == 0 {
        value
    } else {
        spread.least.min(value)
    }
}

/// By which power of two numbers of this size are taken together.
fn scale_of(value: u64) -> u32
    ensures { result ≡ scale_of value }
{
    (64 - value.leading_zeros()).saturating_sub(4)
}

/// The class of a number.
pub fn class_of(value: u64) -> usize
    ensures class { result ≡ class_of value }
    ensures within { result < CLASSES }
{
    let scale = scale_of(value);
    8 * scale as usize + (value >> scale) as usize
}

/// By which power of two the numbers of a class are taken together.
fn scale_at(class: usize) -> u32
    requires { class < CLASSES }
    ensures scale { result ≡ scale_at class }
    ensures within { result ≤ 60 }
{
    (class / 8).saturating_sub(1) as u32
}

/// How many numbers of this size are taken together.
fn width_of(scale: u32) -> u64
    requires { scale ≤ 60 }
    ensures { result ≡ 2 ^ scale }
{
    1 << scale
}

/// The least number of a class.
pub fn first_of(class: usize) -> u64
    requires { class < CLASSES }
    ensures { result ≡ first_of class }
{
    let scale = scale_at(class);
    (class - 8 * scale as usize) as u64 * width_of(scale)
}

/// The greatest number of a class.
pub fn last_of(class: usize) -> u64
    requires { class < CLASSES }
    ensures { result ≡ last_of class }
{
    first_of(class) + (width_of(scale_at(class)) - 1)
}

/// Counts one more in a class.
fn add_one(classes: &mut [u64; CLASSES], class: usize)
    ensures { classes.new ≡ with_class class classes.old }
{
    if class < classes.len() {
        classes[class] = classes[class].saturating_add(1);
    }
}
