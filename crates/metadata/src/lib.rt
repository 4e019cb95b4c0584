// The metadata of an image: its two lines of states, the backup segment of a main segment, where its checkpoint stands, and the
// new backup segment.

#![tactic(auto)]

ghost use Rattle.std.specs.Prelude.{◌≡◌, ℕ, ◌+◌, ◌≤◌, ◌<◌, eqb, length};
ghost use Rattle.model.specs.Range.{first_b};
ghost use Rattle.model.specs.Layout.{word_size, line_size, most, states_at, odd_states_at, pairs_end, ss_main, state_line, SizesOk};
ghost use Rattle.model.specs.Container.{committed_epoch, active_line, inactive_line, active_state, seg_state, backup_to_main, Valid, paired_backup, free_backups, new_backup, checkpoint_located};
ghost use Rattle.model.specs.FreeBackups.{mains_in_backup};
ghost use Rattle.metadata.specs.Find.{found_below};

use model::Layout;

// The pair byte of an unpaired backup segment, as a search asks for it.
const NO_MAIN: u64 = Layout::UNPAIRED as u64;

// The active line of states is this epoch's, the inactive one the next epoch's.
const ACTIVE: u64 = 0;

const INACTIVE: u64 = 1;

// ---- the lines of states

// Where the line of states stands that the parity of the epoch picks, so many epochs from now.
#[tactic(auto, unfolding(model::specs::Layout::state_line))]
fn line_at(image: &[u8], later: u64) -> usize
    requires { (word_size ≤ length image.now) × (later ≤ 1) }
    ensures { (result ≡ state_line (later + committed_epoch image.now)) × (states_at ≤ result) × (result ≤ odd_states_at) }
{
    let odd = words::word_at(image, Layout::EPOCH_AT as usize) % 2;
    (Layout::STATES_AT + Layout::LINE_SIZE * ((odd + later) % 2)) as usize
}

// Where the line of states stands that the epoch's parity picks.
pub fn active_at(image: &[u8]) -> usize
    requires { word_size ≤ length image.now }
    ensures { (result ≡ active_line image.now) × (states_at ≤ result) × (result ≤ odd_states_at) }
{
    line_at(image, ACTIVE)
}

// Where the other line of states stands.
pub fn inactive_at(image: &[u8]) -> usize
    requires { word_size ≤ length image.now }
    ensures { (result ≡ inactive_line image.now) × (states_at ≤ result) × (result ≤ odd_states_at) }
{
    line_at(image, INACTIVE)
}

// ---- backup segments

// What a search answers that found this number: a backup segment, or none if it is beyond the last.
#[tactic(auto, unfolding(crate::specs::Find::found_below))]
fn found_below(backups: u64, j: u64) -> Option<u64>
    ensures { result ≡ found_below backups j }
{
    (j < backups).then_some(j)
}

// The lowest backup segment whose pair byte is `main`, searched for a word of pairs at a time.
pub fn find_paired_backup(image: &[u8], layout: Layout, main: u64) -> Option<u64>
    requires { (layout.backups ≤ most) × (main < 256) × (pairs_end ≤ length image.now) }
    ensures { result ≡ found_below layout.backups (paired_backup layout (backup_to_main image.now) main) }
{
    for k in 0..layout.backups.div_ceil(Layout::WORD_SIZE) {
        let j = Layout::WORD_SIZE * k;
        let word = words::word_at(image, (Layout::PAIRS_AT + j) as usize);
        let place = words::first_byte(word, main as u8);
        if place < Layout::WORD_SIZE {
            return found_below(layout.backups, j + place);
        }
    }
    None
}

// The state on a line of states of the main segment that a pair byte names.
fn paired_state(image: &[u8], line: usize, pair: u8) -> u8
    requires { (pair < most) × (line + line_size ≤ length image.now) }
    ensures { result ≡ seg_state image.now line pair }
{
    image[line + usize::from(pair)]
}

// Of backup segments that all have a main segment, the lowest whose main segment is in state 1.
fn find_unused_backup(image: &[u8], layout: Layout, line: usize) -> Option<u64>
    requires backups_le_most { (layout.backups ≤ most) × (pairs_end ≤ length image.now) × (line + line_size ≤ length image.now) }
    requires by_index { (j : ℕ) → j < layout.backups → backup_to_main image.now j < most }
    ensures { result ≡ found_below layout.backups (first_b layout.backups (λ j. eqb (seg_state image.now line (backup_to_main image.now j)) ss_main)) }
{
    (0..layout.backups).find(|j| {
        paired_state(image, line, image[(Layout::PAIRS_AT + *j) as usize]) == Layout::SS_MAIN
    })
}

// The new backup segment by the active line of states (SPECIFICATION 3.4): the lowest that is unpaired; if all are paired, the lowest
// whose main segment is in state 1.
pub fn find_new_backup(image: &[u8], layout: Layout) -> Option<u64>
    requires mains_le_most { (layout.mains ≤ most) × (layout.backups ≤ most) × (pairs_end ≤ length image.now) }
    requires valid { Valid layout (active_state image.now) (backup_to_main image.now) }
    ensures { result ≡ found_below layout.backups (new_backup layout (active_state image.now) (backup_to_main image.now)) }
{
    match find_paired_backup(image, layout, NO_MAIN) {
        Some(alone) => Some(alone),
        None => find_unused_backup(image, layout, line_at(image, ACTIVE)),
    }
}

// How many main segments are in state 2 on a line of states.
fn count_in_backup(image: &[u8], layout: Layout, line: usize) -> u64
    requires { (layout.mains ≤ most) × (line + line_size ≤ length image.now) }
    ensures { result ≡ mains_in_backup layout (seg_state image.now line) }
{
    let states = &image[line..line + layout.mains as usize];
    states
        .iter()
        .filter(|state| **state == Layout::SS_BACKUP)
        .count() as u64
}

// How many backup segments are free by the active line of states: all but those of the main segments in state 2.
pub fn free_backups(image: &[u8], layout: Layout) -> u64
    requires { SizesOk layout × (pairs_end ≤ length image.now) × Valid layout (active_state image.now) (backup_to_main image.now) }
    ensures { result ≡ free_backups layout (active_state image.now) (backup_to_main image.now) }
{
    layout.backups - count_in_backup(image, layout, active_at(image))
}

// Where the checkpoint of a main segment stands, by a line of states and pairs that are valid: a segment in state 2 has a
// backup segment.
#[tactic(auto, using(crate::proofs::LocatedLaws::located_nowhere, crate::proofs::LocatedLaws::located_main, crate::proofs::LocatedLaws::located_backup, crate::proofs::LocatedLaws::backup_there, crate::proofs::FindLaws::found_backup, crate::proofs::FindLaws::found_missing))]
pub fn checkpoint_located(image: &[u8], layout: Layout, line: usize, main: u64) -> Option<u64>
    requires main_lt_mains { (main < layout.mains) × SizesOk layout × (pairs_end ≤ length image.now) × (line + line_size ≤ length image.now) }
    requires valid { Valid layout (seg_state image.now line) (backup_to_main image.now) }
    ensures { result ≡ checkpoint_located layout image.now line main }
{
    match image[line + main as usize] {
        Layout::SS_INITIAL => None,
        Layout::SS_MAIN => Some(places::main_at(layout, main) as u64),
        _ => {
            let backup = find_paired_backup(image, layout, main)?;
            Some(places::backup_at(layout, backup) as u64)
        }
    }
}
