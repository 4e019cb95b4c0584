// The calls of a bench sheet (SPECIFICATION 16). Each gets a trace of its own and the record of the one client that the last one
// left, is replayed, and its answer is appended to the printed text.

#![tactic(auto)]

ghost use Rattle.std.specs.Prelude.{◌+◌, ◌≤◌, ◌≡◌, true, length};
ghost use Rattle.model.specs.Layout.{word_size, sizes_ok, image_size};
ghost use Rattle.model.specs.Container.{committed_epoch};
ghost use Rattle.model.specs.Outcome.{told};
ghost use Rattle.model.specs.Reference.{write_args};
ghost use Rattle.model.specs.Write.{write_args_of};
ghost use Rattle.printer.specs.Page.{Room, Appended, Grown};
ghost use Rattle.calls.specs.Ran.{answer_size, call_size, answer_of, Kept, Opened, CallRan, CheckpointRan};

use model::{Answer, Client, Layout, Place, Refusal, Session};
use printer::Page;
use std::slice;

// The numbers of the trace that every call gets, enough for an opening that copies every main segment whole.
const TRACE_NUMBERS: usize = trace::OP_NUMBERS
    * (Layout::BLOCK_OPS * lines::MOST_SIZE * lines::MOST_SIZE + 1) as usize;

// The one client of a sheet (the trade: console), which makes every write.
const CLIENT: u64 = 0;

// A group of a sheet but for its bytes.
#[derive(Clone, Copy)]
pub struct GroupParts {
    pub place: Place,
    // Whether a checkpoint follows the write (the trade: save).
    pub checkpoint: bool,
}

// Where a sheet stands: the image of its module, the session, and the record of the one client.
#[derive(Drop)]
pub struct Sheet<'a> {
    pub image: &'a mut [u8],
    pub session: Session,
    pub client: Client,
}

impl<'a> Sheet<'a> {
    // Formats an image (the trade: lays out), opens it, replays the opening, and prints its line.
    pub fn open(image: &'a mut [u8], layout: Layout, page: &mut Page) -> Sheet<'a>
        requires image_len { (length image.old ≡ image_size layout) × (sizes_ok layout ≡ true) }
        requires room { Room page.old call_size }
        ensures same { result.image.ghost_name ≡ image.entry.ghost_name }
        ensures size { length result.image.now ≡ length image.old }
        ensures opened { Opened layout page.old result page.new }
        ensures grown { Grown page.old call_size page.new }
    {
        let _ = format::crpm_format(image, layout);
        let mut client = Client {
            reserved: layout.backups,
            quota: layout.backups,
            used: 0,
        };
        let mut trace = [0; TRACE_NUMBERS];
        let clients = slice::from_mut(&mut client);
        let opened = driver::step_open(image, layout, Session::ADR, clients, &mut trace);
        // that of zeros, which a refused opening leaves
        let session = Session::fresh(Layout::new(0, 0, 0), Session::ADR);
        let mut sheet = Sheet {
            image,
            session,
            client,
        };
        sheet.answered(b"open=", opened, page);
        page.text(b"\n");
        sheet
    }

    // Takes the session that a call leaves, and appends a key, the number of the call's answer and that of its operations (the
    // trade: orders).
    fn answered(&mut self, key: &[u8], answer: Result<Answer, Refusal>, page: &mut Page)
        requires { Room page.old (length key.now + answer_size) }
        ensures same { (self.new.image.ghost_name ≡ self.old.image.ghost_name) × (self.new.image.now ≡ self.old.image.now) × (self.new.client ≡ self.old.client) }
        ensures session { self.new.session ≡ (told self.old.session answer).session }
        ensures appended { Appended page.old (answer_of key.now (told self.old.session answer)) page.new }
        ensures upper_bound { page.new.end ≤ page.old.end + length key.now + answer_size }
    {
        let ops = match answer {
            Ok(answer) => {
                self.session = answer.session;
                answer.ops
            }
            Err(_) => 0,
        };
        page.number(key, model::status_code(answer), b" orders=");
        page.decimal(ops);
    }

    // The write of a group, made and replayed, and its answer.
    pub fn write(&mut self, place: Place, bytes: &[u8], page: &mut Page)
        requires { Room page.old call_size }
        ensures kept { Kept self.old self.new }
        ensures call_ran { CallRan self.old (write_args (write_args_of 0 place.main place.block place.offset bytes.now)) "write=" page.old self.new page.new }
        ensures grown { Grown page.old call_size page.new }
    {
        let mut trace = [0; TRACE_NUMBERS];
        let clients = slice::from_mut(&mut self.client);
        let written = driver::step_write(
            self.image,
            self.session,
            clients,
            CLIENT,
            place,
            bytes,
            &mut trace,
        );
        self.answered(b"write=", written, page);
    }

    // A checkpoint, if it is wanted (the trade: save), made and replayed, and its answer behind a space.
    pub fn checkpoint(&mut self, wanted: bool, page: &mut Page)
        requires { Room page.old call_size }
        ensures kept { Kept self.old self.new }
        ensures checkpoint_ran { CheckpointRan self.old wanted page.old self.new page.new }
        ensures grown { Grown page.old call_size page.new }
    {
        if !wanted {
            page.text(b" save=- orders=0");
            return;
        }
        let mut trace = [0; TRACE_NUMBERS];
        let clients = slice::from_mut(&mut self.client);
        let checkpointed = driver::step_checkpoint(self.image, self.session, clients, &mut trace);
        self.answered(b" save=", checkpointed, page);
    }
    // The epoch of the image.
    pub fn epoch(&self) -> u64
        requires { word_size ≤ length self.now.image.now }
        ensures { result ≡ committed_epoch self.now.image.now }
    {
        words::word_at(self.image, Layout::EPOCH_AT as usize)
    }
}
