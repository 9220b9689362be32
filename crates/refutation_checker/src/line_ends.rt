// Lines told apart by the LF at their ends.
ghost use Rattle.std.specs.Prelude.{◌≡◌, ◌+◌, ◌-◌, ◌<◌, ◌≤◌, length, take, slice_index};
ghost use Rattle.refutation_checker.specs.Chunks.{EndsLines, line_count, feeds};

// The bytes of a block, which are counted at once: few enough for the number of their LF to fit a byte.
const BLOCK: usize = 240;

/// Where the first `size` lines end, behind the LF of the last one; at the end where there are fewer. Blocks in front
/// of the one with that LF are only counted.
#[tactic(auto, using(crate::proofs::Feeds::fed_in_all))]
pub fn lines_end(bytes: &[u8], size: usize) -> usize
    requires some { 1 ≤ size }
    ensures within { result ≤ length bytes.now }
    ensures some { 0 < length bytes.now → 0 < result }
    ensures lines { EndsLines bytes.now size result }
{
    let mut count = 0;
    let mut at = 0;
    while at < bytes.len() {
        let end = block_end(bytes.len(), at);
        let block = &bytes[at..end];
        let more = usize::from(feeds_in_block(block));
        if count + more >= size {
            return at + lines_end_in(block, size - count);
        }
        count += more;
        at = end;
    }
    bytes.len()
}

// Where the first `size` lines of a block end, which has `size` LF at least.
#[tactic(auto, using(crate::proofs::Feeds::fed, crate::proofs::Feeds::not_fed, crate::proofs::Feeds::fed_in_all))]
fn lines_end_in(block: &[u8], size: usize) -> usize
    requires some { 1 ≤ size }
    requires many { size ≤ feeds block.now }
    ensures within { (0 < result) × (result ≤ length block.now) }
    ensures count { feeds (take result block.now) ≡ size }
    ensures last { slice_index block.now (result - 1) ≡ 10 }
{
    let mut count = 0;
    for (i, byte) in block.iter().enumerate() {
        if *byte == b'\n' {
            count += 1;
            if count == size {
                return i + 1;
            }
        }
    }
    unreachable!()
}

// Where the block ends that begins at a place: behind its last byte, or at the end.
fn block_end(long: usize, at: usize) -> usize
    requires { at < long }
    ensures { (at < result) × (result ≤ long) × (result ≤ at + BLOCK) }
{
    if long - at <= BLOCK { long } else { at + BLOCK }
}

/// The number of lines, of which the last one may have no LF.
#[tactic(auto, using(crate::proofs::Feeds::fed_at_end))]
pub fn count_lines(bytes: &[u8]) -> usize
    requires { 0 < length bytes.now }
    ensures value { result ≡ line_count bytes.now }
    ensures some { 1 ≤ result }
{
    let feeds = count_feeds(bytes);
    if bytes[bytes.len() - 1] == b'\n' {
        feeds
    } else {
        feeds + 1
    }
}

#[tactic(auto, using(crate::proofs::Feeds::fed_in_all))]
fn count_feeds(bytes: &[u8]) -> usize
    ensures value { result ≡ feeds bytes.now }
    ensures few { result ≤ length bytes.now }
{
    let mut count = 0;
    let mut at = 0;
    while at < bytes.len() {
        let end = block_end(bytes.len(), at);
        count += usize::from(feeds_in_block(&bytes[at..end]));
        at = end;
    }
    count
}

// Adds without a branch, so that many bytes are counted at once.
#[tactic(auto, using(crate::proofs::Feeds::fed_or_not, crate::proofs::Feeds::fed_in_all))]
fn feeds_in_block(block: &[u8]) -> u8
    requires { length block.now ≤ BLOCK }
    ensures value { result ≡ feeds block.now }
    ensures few { result ≤ length block.now }
{
    let mut count: u8 = 0;
    for byte in block {
        count += u8::from(*byte == b'\n');
    }
    count
}
