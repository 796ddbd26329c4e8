//! A digest of all that the jobs write, which tells two outputs apart: eight bytes at a time, by the step of FNV-1a.
//!
//! Nothing stands below; `main` prints it.

/// The digest so far.
#[derive(Drop)]
pub(crate) struct Digest {
    value: u64,
    bytes: u64,
}

impl Digest {
    /// The digest of nothing.
    pub fn new() -> Digest {
        Digest {
            value: 0xcbf2_9ce4_8422_2325,
            bytes: 0,
        }
    }

    /// Puts a number in.
    pub fn put(&mut self, number: u64) {
        let mixed = (self.value ^ number).wrapping_mul(0x0000_0100_0000_01b3);
        self.value = mixed ^ (mixed >> 29);
    }

    /// Puts bytes in, and how many they are.
    pub fn put_bytes(&mut self, bytes: &[u8]) {
        for eight in bytes.chunks(8) {
            let mut word = [0u8; 8];
            for (to, from) in word.iter_mut().zip(eight) {
                *to = *from;
            }
            self.put(u64::from_le_bytes(word));
        }
        self.put(bytes.len() as u64);
        self.bytes = self.bytes.wrapping_add(bytes.len() as u64);
    }

    /// How many bytes were put in.
    pub fn bytes(&self) -> u64 {
        self.bytes
    }

    /// The digest.
    pub fn value(&self) -> u64 {
        self.value
    }
}
