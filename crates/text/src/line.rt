// The fields of a line: a tab stands between two.
ghost use Rattle.std.specs.Prelude.{◌≡◌};
ghost use Rattle.text.specs.Text.{first_of, behind_of, after_of, field_of, field_count};

const TAB: u8 = b'\t';

// What stands before the first tab.
pub fn first(s: &[u8]) -> &[u8]
    ensures { result.now ≡ first_of s.now }
{
    let i = byte_search::find(s, 0, s.len(), TAB);
    &s[..i]
}

// What stands behind it.
pub fn behind(s: &[u8]) -> &[u8]
    ensures { result.now ≡ behind_of s.now }
{
    let i = byte_search::find(s, 0, s.len(), TAB);
    if i == s.len() {
        return &s[i..];
    }
    let k = i + 1;
    &s[k..]
}

// What stands behind the first k tabs; nothing where there are fewer. `behind` is the definition's own step: `split` is no plainer.
pub fn after(line: &[u8], k: usize) -> &[u8]
    ensures { result.now ≡ after_of k line.now }
{
    let mut s = line;
    for _i in 0..k {
        s = behind(s);
    }
    s
}

// Field k, from 0; empty where the line has fewer.
pub fn field(line: &[u8], k: usize) -> &[u8]
    ensures { result.now ≡ field_of k line.now }
{
    first(after(line, k))
}

// How many fields the line has.
pub fn count(line: &[u8]) -> usize
    ensures { result ≡ field_count line.now }
{
    1 + line.iter().filter(|b| **b == TAB).count()
}
