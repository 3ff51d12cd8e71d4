//! Bytes that were read and not used yet.
ghost use Rattle.std.specs.Prelude.{◌≡◌, ◌≤◌, ◌<◌, ◌-◌, ℕ, List, [], ◌+◌, length, take, drop, IfOk, OnErr};
ghost use Rattle.std.specs.Io.{StartsWith, appended_bytes};
ghost use Rattle.om_io.specs.Bytes.{before_told};
ghost use Rattle.om_io.specs.Causes.{HasCause, Rose};
ghost use Rattle.om_event.specs.Fronts.{line_len};
ghost use Rattle.om_event.specs.Next.{NoneLeft};
ghost use Rattle.om_event.specs.Waits.{Stands};
ghost use Rattle.om_event.specs.declared.limits.TheConstants.{MOST_HELD_BYTES, MOST_LINE_BYTES};

use crate::waited::Waited;
use crate::{MOST_HELD_BYTES, MOST_LINE_BYTES};
use om_io::{Failed, Source};
use std::marker::Model;

/// Bytes of a stream in a buffer of fixed size. Contracts see them as their list.
#[derive(Drop)]
pub(crate) struct Hold {
    buffer: [u8; MOST_HELD_BYTES],
    start: usize,
    end: usize,
}

impl Model for Hold {
    ghost use Rattle.std.specs.Prelude.{ℕ, ◌≤◌, ◌-◌, List, take, drop};
    ghost use Rattle.om_event.specs.declared.limits.TheConstants.{MOST_HELD_BYTES};

    ghost Value = { List ℕ };

    ghost view = { λ h. take (h.end - h.start) (drop h.start h.buffer) };

    ghost invariant = { λ h. (h.start ≤ h.end) × (h.end ≤ MOST_HELD_BYTES) };
}

impl Hold {
    /// No bytes.
    pub(crate) fn new() -> Hold
        ensures { result ≡ [] }
    {
        Hold {
            buffer: [0; MOST_HELD_BYTES],
            start: 0,
            end: 0,
        }
    }

    /// The bytes.
    pub(crate) fn bytes(&self) -> &[u8]
        ensures { result.now ≡ self.now }
    {
        &self.buffer[self.start..self.end]
    }

    /// Lets go of the bytes at the front.
    #[tactic(auto, using(crate::proofs::Held::dropped))]
    pub(crate) fn drop_front(&mut self, count: usize)
        requires { count ≤ length self.old }
        ensures { self.new ≡ drop count self.old }
    {
        self.start += count;
    }

    /// Reads more bytes behind those that are held, no more than a line has, and answers how many came.
    #[tactic(auto, using(crate::proofs::Held::behind, crate::proofs::Held::came_behind, crate::proofs::Held::none_came))]
    pub(crate) fn fill<S: Source>(&mut self, input: &mut S) -> Result<usize, Failed>
        requires { length self.old ≤ MOST_LINE_BYTES }
        ensures more { StartsWith self.new self.old }
        ensures came { IfOk result (λ n. length self.new ≡ length self.old + n) }
        ensures left { S.left input.old ≡ before_told (appended_bytes self.old self.new) (S.left input.new) }
        ensures err { OnErr result (self.new ≡ self.old) }
        ensures room { length self.new ≤ MOST_HELD_BYTES }
        ensures end { IfOk result (λ n. n ≡ 0 → NoneLeft (S.left input.old)) }
        ensures cause { HasCause (S.faults input.old) (S.faults input.new) result }
    {
        let len = self.end - self.start;
        to_front(&mut self.buffer, self.start, self.end);
        self.start = 0;
        self.end = len;
        let count = read_behind(input, &mut self.buffer, len)?;
        self.end = len + count;
        Ok(count)
    }

    /// Reads until a line stands at the front, or can't come. Each byte is looked at once.
    #[tactic(auto, using(crate::proofs::Held::none_came, crate::proofs::Held::starts_more, crate::proofs::Held::came_more, crate::proofs::Held::longer_line))]
    pub(crate) fn wait_for_line<S: Source>(&mut self, input: &mut S) -> Waited<usize>
        ensures more { StartsWith self.new self.old }
        ensures left { S.left input.old ≡ before_told (appended_bytes self.old self.new) (S.left input.new) }
        ensures stands { Stands self.new result }
        ensures end { result ≡ Waited.Ended → NoneLeft (S.left input.new) }
        ensures failed { result ≡ Waited.Failed → Rose (S.faults input.old) (S.faults input.new) }
        ensures later { S.faults input.old ≤ S.faults input.new }
    {
        let mut seen = 0;
        'waiting: loop {
            seen += feed_place(&self.bytes()[seen..]);
            if seen > MOST_LINE_BYTES {
                return Waited::TooLong;
            }
            if seen < self.bytes().len() {
                return Waited::Line(seen);
            }
            match self.fill(input) {
                Ok(0) => return Waited::Ended,
                Ok(_) => {}
                Err(Failed) => return Waited::Failed,
            }
        }
    }
}

// How many bytes stand before the first line feed, or the end.
fn feed_place(bytes: &[u8]) -> usize
    ensures value { result ≡ line_len bytes.now }
    ensures within { result ≤ length bytes.now }
{
    bytes.iter().take_while(|b| **b != b'\n').count()
}

// Moves some bytes of a buffer to its front.
#[tactic(auto, using(crate::proofs::Held::copied_front))]
fn to_front(buffer: &mut [u8], start: usize, end: usize)
    requires ordered { start ≤ end }
    requires within { end ≤ length buffer.old }
    ensures same { take (end - start) buffer.new ≡ take (end - start) (drop start buffer.old) }
    ensures len { length buffer.new ≡ length buffer.old }
{
    buffer.copy_within(start..end, 0);
}

// Reads into what stands behind the first bytes of a buffer.
fn read_behind<S: Source>(input: &mut S, buffer: &mut [u8], len: usize) -> Result<usize, Failed>
    requires { len < length buffer.old }
    ensures same { take len buffer.new ≡ take len buffer.old }
    ensures within { IfOk result (λ n. len + n ≤ length buffer.old) }
    ensures came { IfOk result (λ n. S.left input.old ≡ before_told (take n (drop len buffer.new)) (S.left input.new)) }
    ensures kept { OnErr result (S.left input.new ≡ S.left input.old) }
    ensures end { IfOk result (λ n. n ≡ 0 → NoneLeft (S.left input.old)) }
    ensures cause { HasCause (S.faults input.old) (S.faults input.new) result }
{
    input.read(&mut buffer[len..])
}
