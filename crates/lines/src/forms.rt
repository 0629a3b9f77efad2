// What a line asks for.
ghost use Rattle.std.specs.Prelude.{◌≡◌, ◌&&◌, ℕ, ◌≤◌, eqb, length};
ghost use Rattle.octets.specs.Octets.{write_at};
ghost use Rattle.fate.specs.declared.Fate.{Fate as AFate};
ghost use Rattle.cluster.specs.declared.Call.{Call as ACall};
ghost use Rattle.cluster.specs.declared.Request.{Request as ARequest};
ghost use Rattle.text.specs.Text.{field_count};
ghost use Rattle.lines.specs.Words.{same};
ghost use Rattle.lines.specs.Forms.{Meaning, cluster_form, server_fate, server_replica_fate, copy_form, request_then, data_then, issue_form, plain_form, meaning_of, line_limit, Split, line_of, data_of, locks_of, one_then, two_then, head_then};

use crate::values;
use cluster::{Call, Request};
use fate::Fate;
use text::line;

// The longest line that may fit a form, without its newline.
pub const LIMIT: usize = 500;

// What a line asks for: a fresh cluster of R and N, or a call, with the numbers of its data bytes and of its locks. These lie beside it, in
// lent buffers: there is no heap for lists of their own.
#[derive(Clone, Copy)]
pub enum Line {
    Cluster(u64, u64),
    Asked(Call, usize, usize),
}

#[tactic(auto, unfolding(crate::specs::Forms::cluster_form))]
fn cluster_line(line: &[u8]) -> Option<Line>
    ensures { result ≡ line_of (cluster_form line.now) }
{
    let r = values::number_at(line, 1)?;
    let n = values::number_at(line, 2)?;
    Some(Line::Cluster(r, n))
}

// Server and fate.
fn server_fate(line: &[u8]) -> Option<(u64, Fate)>
    ensures { (c : ℕ → AFate → ACall) → one_then result c ≡ server_fate line.now c }
{
    let server = values::number_at(line, 1)?;
    let f = values::fate_at(line, 2)?;
    Some((server, f))
}

// Server, replica and fate.
fn server_replica_fate(line: &[u8]) -> Option<(u64, u64, Fate)>
    ensures { (c : ℕ → ℕ → AFate → ACall) → two_then result c ≡ server_replica_fate line.now c }
{
    let server = values::number_at(line, 1)?;
    let i = values::number_at(line, 2)?;
    let f = values::fate_at(line, 3)?;
    Some((server, i, f))
}

#[tactic(auto, unfolding(crate::specs::Forms::copy_form))]
fn copy(line: &[u8]) -> Option<Line>
    ensures { result ≡ line_of (copy_form line.now) }
{
    let server = values::number_at(line, 1)?;
    let a = values::number_at(line, 2)?;
    let b = values::number_at(line, 3)?;
    let f = values::fate_at(line, 4)?;
    Some(Line::Asked(Call::Copy(server, a, b, f), 0, 0))
}

// Server and request. The generator builds the same request: one is read and one is drawn, each by its own definition.
fn request(line: &[u8]) -> Option<(u64, Request)>
    ensures { (k : ℕ → ARequest → Meaning) → head_then result k ≡ request_then line.now k }
{
    let server = values::number_at(line, 1)?;
    let mark = values::number_at(line, 2)?;
    let generation = values::word_at(line, 3)?;
    let header = values::word_at(line, 4)?;
    Some((
        server,
        Request {
            mark,
            client: 100,
            generation,
            partition: 0,
            sequence: 0,
            header,
        },
    ))
}

// Data and locks of a line of n fields, behind its server and request.
fn beside(
    line: &[u8],
    n: usize,
    server: u64,
    q: Request,
    content: &mut [u8],
    locks: &mut [u64],
) -> Option<Line>
    requires n_value { n ≡ field_count line.now }
    requires le_n { 6 ≤ n }
    requires line_len_bound { length line.now ≤ line_limit }
    requires line_limit_in_bounds { line_limit ≤ length content.old }
    requires line_limit_in_bounds_2 { line_limit ≤ length locks.old }
    ensures value { result ≡ line_of (data_then line.now server q) }
    ensures content_after { content.new ≡ write_at 0 (data_of (data_then line.now server q)) content.old }
    ensures locks_after { locks.new ≡ write_at 0 (locks_of (data_then line.now server q)) locks.old }
{
    let digits = line::field(line, 5);
    if !hex_digits::is_hex(digits) {
        return None;
    }
    let k = n - 6;
    let rest = line::after(line, 6);
    if !values::all_numbers(rest, k) {
        return None;
    }
    hex_digits::read(digits, content);
    values::read_numbers(rest, k, locks);
    Some(Line::Asked(Call::Issue(server, q), digits.len() / 2, k))
}

fn issue(line: &[u8], n: usize, content: &mut [u8], locks: &mut [u64]) -> Option<Line>
    requires n_value { n ≡ field_count line.now }
    requires le_n { 6 ≤ n }
    requires line_len_bound { length line.now ≤ line_limit }
    requires line_limit_in_bounds { line_limit ≤ length content.old }
    requires line_limit_in_bounds_2 { line_limit ≤ length locks.old }
    ensures value { result ≡ line_of (issue_form line.now) }
    ensures content_after { content.new ≡ write_at 0 (data_of (issue_form line.now)) content.old }
    ensures locks_after { locks.new ≡ write_at 0 (locks_of (issue_form line.now)) locks.old }
{
    let (server, q) = request(line)?;
    beside(line, n, server, q, content, locks)
}

// Whether a word is this one, and the number of fields that of its form.
fn is(word: &[u8], w: &[u8], n: usize, fields: usize) -> bool
    ensures { result ≡ (same word.now w.now && eqb n fields) }
{
    word == w && n == fields
}

// The forms that have their number of fields. The line has n, the first of them word.
#[tactic(auto, using(crate::proofs::Same::here, crate::proofs::Same::onward), unfolding(crate::specs::Forms::plain_form))]
fn plain(line: &[u8], word: &[u8], n: usize) -> Option<Line>
    requires { Split line.now word.now n }
    ensures { result ≡ line_of (plain_form line.now) }
{
    if is(word, b"cluster", n, 3) {
        return cluster_line(line);
    }
    if is(word, b"take", n, 3) {
        let (server, f) = server_fate(line)?;
        return Some(Line::Asked(Call::Take(server, f), 0, 0));
    }
    if is(word, b"prep", n, 4) {
        let (server, i, f) = server_replica_fate(line)?;
        return Some(Line::Asked(Call::Prepare(server, i, f), 0, 0));
    }
    if is(word, b"copy", n, 5) {
        return copy(line);
    }
    if is(word, b"open", n, 3) {
        let (server, f) = server_fate(line)?;
        return Some(Line::Asked(Call::Open(server, f), 0, 0));
    }
    if is(word, b"send", n, 4) {
        let (server, i, f) = server_replica_fate(line)?;
        return Some(Line::Asked(Call::Send(server, i, f), 0, 0));
    }
    None
}

// What the line asks for. Data and locks of an issue are put at the start of the two buffers; any other line leaves them as they were.
pub fn read(line: &[u8], content: &mut [u8], locks: &mut [u64]) -> Option<Line>
    requires line_limit_in_bounds { line_limit ≤ length content.old }
    requires line_limit_in_bounds_2 { line_limit ≤ length locks.old }
    ensures value { result ≡ line_of (meaning_of line.now) }
    ensures content_after { content.new ≡ write_at 0 (data_of (meaning_of line.now)) content.old }
    ensures locks_after { locks.new ≡ write_at 0 (locks_of (meaning_of line.now)) locks.old }
{
    if LIMIT < line.len() {
        return None;
    }
    let n = line::count(line);
    let word = line::field(line, 0);
    if word != b"issue".as_slice() {
        return plain(line, word, n);
    }
    if n < 6 {
        return None;
    }
    issue(line, n, content, locks)
}
