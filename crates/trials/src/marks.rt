// What stands for the bytes of a buffer in a line: FNV-1a of 32 bits, or eight bytes as they are.
use crate::buffers::Part;

impl Part {
    // FNV-1a of the bytes to the length, or of all there are.
    pub fn hash(&self) -> u32 {
        self.all
            .iter()
            .take(self.length)
            .fold(2166136261, |hash, byte| {
                (hash ^ u32::from(*byte)).wrapping_mul(16777619)
            })
    }

    // Whether the text begins with the first eight bytes in hexadecimal, whatever the length.
    pub fn is_eight(&self, text: &[u8]) -> bool {
        shows(text, &self.all[..8])
    }
}

// Whether the text begins with the bytes in hexadecimal, two small digits for each.
pub fn shows(text: &[u8], bytes: &[u8]) -> bool {
    let mut digits = text.iter().map(|digit| char::from(*digit));
    for byte in bytes {
        let high = char::from_digit(u32::from(*byte / 16), 16);
        let low = char::from_digit(u32::from(*byte % 16), 16);
        if digits.next() != high || digits.next() != low {
            return false;
        }
    }
    true
}
