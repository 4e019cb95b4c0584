// The trace of a call (SPECIFICATION 6.1; the trade: tape): three numbers an operation, its kind, its place and its word; one
// operation, the stores of the words of bytes, and what a trace has for a kind of module.

#![tactic(auto)]

ghost use Rattle.std.specs.Prelude.{◌≡◌, [], ◌∷◌, ◌+◌, ◌*◌, ◌^◌, ◌≤◌, ◌<◌, length};
ghost use Rattle.std.proofs.lemmas.List.Edits.{sets};
ghost use Rattle.model.specs.Status.{code_of, first_error};
ghost use Rattle.model.specs.Session.{adr};
ghost use Rattle.model.specs.Ops.{store, clwb, sfence, Ops, Trace, op_numbers, trace_errors};
ghost use Rattle.model.specs.Counts.{flushes, copied_ops};
ghost use Rattle.trace.specs.Emit.{Begun, Fits, Emitted, word_stores};

use model::{Layout, Refusal, Session};

// The numbers that an operation takes on a trace.
pub const OP_NUMBERS: usize = 3;

// The kinds of operations (the trade: store, flush, fence).
pub const OP_STORE: u64 = 1;

pub const OP_CLWB: u64 = 2;

pub const OP_SFENCE: u64 = 3;

// Bytes of a word, as indexes count them.
const WORD_SIZE: usize = Layout::WORD_SIZE as usize;

// Writes the operations of a call on its trace, one after the other: those that the trace has for the kind of module.
#[derive(Drop)]
pub struct Writer<'a> {
    // The kind of module.
    pub domain: u64,
    pub trace: &'a mut [u64],
    // The number of the operation that comes next.
    pub next: usize,
}

impl<'a> Writer<'a> {
    // Begins at the start of a trace.
    pub fn new(domain: u64, trace: &'a mut [u64]) -> Writer<'a>
        ensures same_trace { result.trace.ghost_name ≡ trace.entry.ghost_name }
        ensures begun { Begun domain trace.old result }
    {
        Writer {
            domain,
            trace,
            next: 0,
        }
    }

    // Writes the three numbers of an operation.
    fn put(&mut self, kind: u64, place: u64, word: u64)
        requires { op_numbers * (self.old.next + 1) ≤ length self.old.trace.now }
        ensures same { (self.new.trace.ghost_name ≡ self.old.trace.ghost_name) × (self.new.domain ≡ self.old.domain) }
        ensures stands { self.new.trace.now ≡ sets self.old.trace.now (op_numbers * self.old.next) (kind ∷ place ∷ word ∷ []) }
        ensures next { self.new.next ≡ self.old.next + 1 }
    {
        let at = OP_NUMBERS * self.next;
        self.trace[at] = kind;
        self.trace[at + 1] = place;
        self.trace[at + 2] = word;
        self.next += 1;
    }

    // Writes the store of a word at a place.
    pub fn store(&mut self, place: u64, word: u64)
        requires { Fits self.old (store place word ∷ []) }
        ensures { Emitted self.old (store place word ∷ []) self.new }
    {
        self.put(OP_STORE, place, word);
    }

    // Writes the write-back of the line at a place, if the trace has write-backs for the kind of module: this is the one place that looks
    // at it to write or not.
    pub fn clwb(&mut self, place: u64)
        requires { Fits self.old (clwb place ∷ []) }
        ensures { Emitted self.old (clwb place ∷ []) self.new }
    {
        if self.domain != Session::ADR {
            return;
        }
        self.put(OP_CLWB, place, 0);
    }

    // Writes a fence.
    pub fn sfence(&mut self)
        requires { Fits self.old (sfence ∷ []) }
        ensures { Emitted self.old (sfence ∷ []) self.new }
    {
        self.put(OP_SFENCE, 0, 0);
    }

    // Writes the stores of the words that lie whole among bytes, from a place on, upward: each word is read as its store is written.
    pub fn store_words(&mut self, place: u64, bytes: &[u8])
        requires bytes_bound { place + length bytes.now < 2 ^ 64 }
        requires fits { Fits self.old (word_stores place bytes.now) }
        ensures { Emitted self.old (word_stores place bytes.now) self.new }
    {
        let count = bytes.len() / WORD_SIZE;
        for k in 0..count {
            let at = WORD_SIZE * k;
            let word = words::word_at(bytes, at);
            self.store(place + at as u64, word);
        }
    }
}

// How many of so many write-backs a trace has for a kind of module.
pub fn flush_count(domain: u64, count: u64) -> u64
    ensures { (result ≡ flushes domain count) × (result ≤ count) }
{
    if domain == Session::ADR {
        return count;
    }
    0
}

// How many operations a block that is copied or zeroed takes on a trace for a kind of module.
pub fn copied_ops(domain: u64) -> u64
    ensures { (result ≡ copied_ops domain) × (result ≤ 36) }
{
    Layout::BLOCK_WORDS + flush_count(domain, Layout::BLOCK_LINES)
}

// Refusal 11, of a trace that has room for so many numbers, by the number of operations.
pub fn trace_status(room: usize, ops: u64) -> Result<(), Refusal>
    requires { ops ≤ 2 ^ 33 }
    ensures { (O : Ops) (t : Trace) → length O ≡ ops → length t ≡ room → code_of result ≡ first_error (trace_errors O t) }
{
    if (room as u64) < OP_NUMBERS as u64 * ops {
        return Err(Refusal::TraceShort);
    }
    Ok(())
}
