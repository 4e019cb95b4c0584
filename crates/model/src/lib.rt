// The types that every contract speaks of: the sizes of a container, the volatile session, the record of a client, the status of a call
// and the action of recovery, with the constructors of layout and session. What they mean is said in specs/.

#![tactic(auto)]

ghost use Rattle.std.specs.Prelude.{◌≡◌};
ghost use Rattle.model.specs.Layout.{layout_of};
ghost use Rattle.model.specs.Session.{fresh_session};
ghost use Rattle.model.specs.Status.{code_of, refusal_number};

// The sizes of a container (the trade: M levels, S spares, B frames), each 1 to 64 (SPECIFICATION 1.2).
#[derive(Clone, Copy, PartialEq, Eq)]
pub struct Layout {
    // Main segments (the trade: levels).
    pub mains: u64,
    // Backup segments (the trade: spares).
    pub backups: u64,
    // Blocks in each segment (the trade: frames).
    pub blocks: u64,
}

// Every size and place of an image.
impl Layout {
    pub const WORD_SIZE: u64 = 8;

    pub const LINE_SIZE: u64 = 64;

    pub const BLOCK_SIZE: u64 = 256;
    // Words and lines of a block, words of a line.
    pub const BLOCK_WORDS: u64 = 32;

    pub const BLOCK_LINES: u64 = 4;

    pub const LINE_WORDS: u64 = 8;
    // Operations that copy a block: its words stored, its lines written back.
    pub const BLOCK_OPS: u64 = Layout::BLOCK_WORDS + Layout::BLOCK_LINES;

    pub const METADATA_SIZE: u64 = 512;
    // The most main segments, backup segments or blocks.
    pub const MOST: u64 = 64;
    // The same as the length of an array.
    pub const MOST_LEN: usize = Layout::MOST as usize;

    pub const EPOCH_AT: u64 = 0;

    pub const MAINS_AT: u64 = 64;

    pub const BACKUPS_AT: u64 = 72;

    pub const BLOCKS_AT: u64 = 80;

    pub const STATES_AT: u64 = 128;

    pub const PAIRS_AT: u64 = 256;
    // The pair byte of a backup segment that has no main segment.
    pub const UNPAIRED: u8 = 255;
    // The three states of a main segment: its checkpoint is all zero, stands in itself, stands in its backup.
    pub const SS_INITIAL: u8 = 0;

    pub const SS_MAIN: u8 = 1;

    pub const SS_BACKUP: u8 = 2;

    // The layout of these sizes, whatever they are.
    pub fn new(mains: u64, backups: u64, blocks: u64) -> Layout
        ensures { result ≡ layout_of mains backups blocks }
    {
        Layout {
            mains,
            backups,
            blocks,
        }
    }
}

// What is kept in volatile memory between calls (the trade: the card; SPECIFICATION 5).
#[derive(Clone, Copy)]
pub struct Session {
    pub layout: Layout,
    // One bit for each main segment written since the last checkpoint (the trade: touched).
    pub dirty_segments: u64,
    // For each main segment one word, with one bit for each dirty block (the trade: marked).
    pub dirty_blocks: [u64; Layout::MOST_LEN],
    // The kind of module, as the opening was given it: ADR or EADR.
    pub domain: u64,
}

impl Session {
    // The kinds of module (the ported paper: persistence domains): the cache may lose what was not written back, or it keeps every
    // store, and then no write-back is written.
    pub const ADR: u64 = 0;

    pub const EADR: u64 = 1;

    // A session of a layout on a kind of module in which nothing is dirty.
    pub fn fresh(layout: Layout, domain: u64) -> Session
        ensures { result ≡ fresh_session layout domain }
    {
        Session {
            layout: layout,
            dirty_segments: 0,
            dirty_blocks: [0; Layout::MOST_LEN],
            domain: domain,
        }
    }
}

// Where a write starts (the trade: level, frame and offset): a main segment, a block of it, and an offset in the block.
#[derive(Clone, Copy)]
pub struct Place {
    pub main: u64,
    pub block: u64,
    pub offset: u64,
}

// What a client may take of the backup segments (the trade: a console's share, limit and taken spares; SPECIFICATION 5.7). The records
// of all clients are lent together.
#[derive(Clone, Copy)]
pub struct Client {
    // Backup segments that the others leave to it.
    pub reserved: u64,
    // The most that it may take.
    pub quota: u64,
    // Those that it has taken since the last checkpoint or opening.
    pub used: u64,
}

// Why a call is refused (SPECIFICATION 14).
#[derive(Clone, Copy, PartialEq, Eq)]
pub enum Refusal {
    BadSize,
    BadLength,
    Foreign,
    Invalid,
    BadSession,
    NoSuchMain,
    NoSuchBlock,
    BadSpan,
    NoFreeBackup,
    EpochLimit,
    TraceShort,
    TraceBad,
    BadClients,
    QuotaReached,
    BackupsReserved,
}

// The number of a refusal (SPECIFICATION 14.1).
impl From<Refusal> for u64 {
    ghost from_gives = { λ r n. n ≡ refusal_number r };

    fn from(refusal: Refusal) -> u64 {
        match refusal {
            Refusal::BadSize => 1,
            Refusal::BadLength => 2,
            Refusal::Foreign => 3,
            Refusal::Invalid => 4,
            Refusal::BadSession => 5,
            Refusal::NoSuchMain => 6,
            Refusal::NoSuchBlock => 7,
            Refusal::BadSpan => 8,
            Refusal::NoFreeBackup => 9,
            Refusal::EpochLimit => 10,
            Refusal::TraceShort => 11,
            Refusal::TraceBad => 12,
            Refusal::BadClients => 13,
            Refusal::QuotaReached => 14,
            Refusal::BackupsReserved => 15,
        }
    }
}

// The number that tells how a call ended (SPECIFICATION 14.1): 0 if it is served, and else that of its refusal.
pub fn status_code<T: Drop>(ended: Result<T, Refusal>) -> u64
    ensures { result ≡ code_of ended }
{
    match ended {
        Ok(_) => 0,
        Err(refusal) => u64::from(refusal),
    }
}

// What a served opening, write, discard or checkpoint answers: the session afterwards, and how many operations stand on the trace.
#[derive(Clone, Copy)]
pub struct Answer {
    pub session: Session,
    pub ops: u64,
}

// What a write does before its stores: no copy; a copy to the backup segment that the main segment has; a copy to the
// new one; or none is free, and the write is refused.
#[derive(Clone, Copy)]
pub enum Plan {
    NoCopy,
    OwnBackup(u64),
    NewBackup(u64),
    NoneFree,
}

// What recovery does to a main segment and its backup (SPECIFICATION 9.2).
#[derive(Clone, Copy)]
pub enum Action {
    Nothing,
    ZeroMain,
    CopyToBackup,
    CopyToMain,
}
