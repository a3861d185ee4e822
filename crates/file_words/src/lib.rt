#![tactic(auto)]

// Numbers in a byte slice, low byte first: one; tables of them (origins), and pairs (markings and caps).
pub mod capacity;
pub mod origins;

ghost use Rattle.std.specs.Prelude.{◌≡◌, ◌+◌, ◌<◌, ◌≤◌, length};
ghost use Rattle.file_words.specs.Word.{byte_at, le16, le32};

pub fn get8(s: &[u8], at: usize) -> usize
    requires { at < length s.now }
    ensures { (result ≡ byte_at s.now at) × (result < 256) }
{
    s[at] as usize
}

pub fn get16(s: &[u8], at: usize) -> usize
    requires { at + 2 ≤ length s.now }
    ensures { (result ≡ le16 s.now at) × (result < 65536) }
{
    get8(s, at) + 256 * get8(s, at + 1)
}

pub fn get32(s: &[u8], at: usize) -> usize
    requires { at + 4 ≤ length s.now }
    ensures { (result ≡ le32 s.now at) × (result < 4294967296) }
{
    get16(s, at) + 65536 * get16(s, at + 2)
}
