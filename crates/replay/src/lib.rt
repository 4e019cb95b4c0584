// Replay of a trace on an image (SPECIFICATION 6.6; the trade: the player). The operations to be played are judged first, then
// played.

#![tactic(auto)]

ghost use Rattle.std.specs.Prelude.{◌≡◌, ◌↔◌, IsTrue, true, ◌*◌, ◌/◌, ◌%◌, ◌^◌, ◌<◌, length};
ghost use Rattle.std.specs.List.{AllPass};
ghost use Rattle.std.specs.Simd.{first_chunks};
ghost use Rattle.std.specs.Result.{result_unwrap_or};
ghost use Rattle.model.specs.Layout.{line_size};
ghost use Rattle.model.specs.Status.{code_of};
ghost use Rattle.model.specs.Ops.{op_numbers, apply};
ghost use Rattle.model.specs.Replay.{replay_count, replay_status, replay_outcome};
ghost use Rattle.replay.specs.Numbers.{op_well_formed, op_given};

use model::{Layout, Refusal};

// Whether three numbers are an operation on an image of so many lines.
#[tactic(auto, using(crate::proofs::JudgeLaws::below_lines), unfolding(model::specs::Replay::well_formed))]
fn op_well_formed(lines: u64, op: &[u64; trace::OP_NUMBERS]) -> bool
    requires { line_size * lines < 2 ^ 64 }
    ensures { result ≡ op_well_formed lines op.now }
{
    let [kind, place, word] = *op;
    let size = Layout::LINE_SIZE * lines;
    if kind == trace::OP_STORE {
        return (place < size) & (place % Layout::WORD_SIZE == 0);
    }
    let clwb = (kind == trace::OP_CLWB) & (place % Layout::LINE_SIZE == 0) & (word == 0);
    let sfence = (kind == trace::OP_SFENCE) & (place == 0) & (word == 0);
    (place < size) & (clwb | sfence)
}

// Whether operations are well formed on an image of so many lines. They are judged downward, so that the first of them are still
// in the cache when they are played.
fn all_well_formed(lines: u64, ops: &[[u64; trace::OP_NUMBERS]]) -> bool
    requires { line_size * lines < 2 ^ 64 }
    ensures { IsTrue result ↔ AllPass (op_well_formed lines) ops.now }
{
    ops.iter().rev().all(|op| op_well_formed(lines, op))
}

// The first n operations of a trace, or all if there are fewer: the three numbers of each.
#[tactic(auto, using(crate::proofs::JudgeLaws::first_threes), unfolding(model::specs::Replay::replay_count))]
fn first_ops(trace: &[u64], n: u64) -> &[[u64; trace::OP_NUMBERS]]
    ensures { result.now ≡ first_chunks op_numbers (replay_count trace.now n) trace.now }
{
    let (ops, _) = trace.as_chunks();
    let count = n.min(ops.len() as u64);
    &ops[..count as usize]
}

// The status of a replay.
#[tactic(auto, unfolding(model::specs::Replay::replay_status, model::specs::Status::first_error))]
fn replay_status(image: &[u8], trace: &[u64], n: u64) -> Result<(), Refusal>
    ensures { code_of result ≡ replay_status image.now trace.now n }
{
    if image.len() as u64 % Layout::LINE_SIZE != 0 {
        return Err(Refusal::BadLength);
    }
    if trace.len() % trace::OP_NUMBERS != 0 {
        return Err(Refusal::TraceBad);
    }
    let lines = image.len() as u64 / Layout::LINE_SIZE;
    if !all_well_formed(lines, first_ops(trace, n)) {
        return Err(Refusal::TraceBad);
    }
    Ok(())
}

// Plays one operation: a store changes the image, the others do not.
#[tactic(auto, using(crate::proofs::JudgeLaws::store_inside), unfolding(model::specs::Ops::op_of, model::specs::Ops::apply))]
fn play_op(image: &mut [u8], op: &[u64; trace::OP_NUMBERS])
    requires line_size_len { length image.old % line_size ≡ 0 }
    requires word_value { op_well_formed (length image.old / line_size) op.now ≡ true }
    ensures { image.new ≡ apply (op_given op.now) image.old }
{
    let [kind, place, word] = *op;
    if kind == trace::OP_STORE {
        words::store_word(image, place as usize, word);
    }
}

// Plays the first n operations of a trace, or all if there are fewer, and answers how many. A refusal plays none and changes nothing.
#[tactic(auto, using(model::proofs::Laws::Status::refusal_refuses, crate::proofs::JudgeLaws::length_threes), unfolding(model::specs::Replay::replay_outcome))]
pub fn crpm_replay(image: &mut [u8], trace: &[u64], n: u64) -> Result<u64, Refusal>
    ensures status_value { code_of result ≡ (replay_outcome image.old trace.now n).status }
    ensures played_value { result_unwrap_or result 0 ≡ (replay_outcome image.old trace.now n).played }
    ensures image_after { image.new ≡ (replay_outcome image.old trace.now n).image }
{
    replay_status(image, trace, n)?;
    let ops = first_ops(trace, n);
    for op in ops {
        play_op(image, op);
    }
    Ok(ops.len() as u64)
}
