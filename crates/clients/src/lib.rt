// The records of clients (SPECIFICATION 5.7), which opening, write and checkpoint are lent together: taken as a value, judged
// (refusals 13 to 15), and changed where they are lent. A record is lent by name or as three words, as the C interface and programs of
// this repository lend it.

#![tactic(auto)]

ghost use Rattle.std.specs.Prelude.{◌≡◌, true, cond, suc, ◌-◌, ◌≤◌, ◌<◌, map, leb, eqb, set, IfOk};
ghost use Rattle.model.specs.declared.Client.{Client};
ghost use Rattle.model.specs.Range.{sum_to};
ghost use Rattle.model.specs.Status.{code_of, first_error};
ghost use Rattle.model.specs.Clients.{Clients, most_clients, client_at, with_used, unused, cleared, client_bad, clients_errors, client_errors, share_errors};
ghost use Rattle.clients.specs.Run.{loaded};
ghost use Rattle.clients.specs.Words.{client_in};

use model::{Client, Layout, Refusal};
use std::array;

// The most records that are lent.
const MOST_CLIENTS: usize = 8;

// A record with nothing in it.
const NO_CLIENT: Client = Client {
    reserved: 0,
    quota: 0,
    used: 0,
};

// ---- records as they are lent

// A record as it is lent: the client that it tells of, and a record of a client.
pub trait Record: Copy {
    ghost client_of: { Self → Client };

    fn client(self) -> Client
        ensures { result ≡ client_of self };

    fn of(client: Client) -> Self
        ensures { client_of result ≡ client };
}

// By name.
impl Record for Client {
    ghost client_of = { λ c. c };

    fn client(self) -> Client {
        self
    }

    fn of(client: Client) -> Client {
        client
    }
}

// Words of a record: its share, its limit, and what the client has taken.
pub const CLIENT_WORDS: usize = 3;

// In words.
impl Record for [u64; CLIENT_WORDS] {
    ghost client_of = { client_in };

    fn client(self) -> Client {
        let [reserved, quota, used] = self;
        Client {
            reserved,
            quota,
            used,
        }
    }

    fn of(client: Client) -> [u64; CLIENT_WORDS] {
        [client.reserved, client.quota, client.used]
    }
}

// The client of record i; past the last record, one with nothing in it.
fn client_at<R: Record>(records: &[R], i: usize) -> Client
    ensures { result ≡ client_at (map R.client_of records.now) i }
{
    records.get(i).map_or(NO_CLIENT, |record| record.client())
}

// Record i becomes one of this client; past the last record nothing changes.
pub fn put<R: Record>(records: &mut [R], i: usize, client: Client)
    ensures { map R.client_of records.new ≡ set (map R.client_of records.old) i client }
{
    if i < records.len() {
        records[i] = R::of(client);
    }
}

// No client has taken anything.
pub fn clear<R: Record>(records: &mut [R])
    ensures { map R.client_of records.new ≡ cleared (map R.client_of records.old) }
{
    for record in records.iter_mut() {
        *record = R::of(Client {
            used: 0,
            ..record.client()
        });
    }
}

// ---- the records as a value

// The records of all clients as a value: how many there are, and the first 8.
#[derive(Clone, Copy)]
pub struct Run {
    pub count: usize,
    pub clients: [Client; MOST_CLIENTS],
}

impl Run {
    // The records that are lent.
    pub fn load<R: Record>(records: &[R]) -> Run
        ensures { result ≡ loaded (map R.client_of records.now) }
    {
        Run {
            count: records.len(),
            clients: array::from_fn(|i| client_at(records, i)),
        }
    }

    // ---- refusal 13

    // Refusal 13 for an opening or a checkpoint: more than 8 records, a bad one, or shares that add up to more than there are backup
    // segments. What is left of these is counted down, so no sum can wrap.
    pub fn judge(self, layout: Layout) -> Result<(), Refusal>
        ensures result_value { (R : Clients) → self ≡ loaded R → code_of result ≡ first_error (clients_errors layout R) }
        ensures count_le_most_clients { IfOk result (λ _. self.count ≤ most_clients) }
    {
        if MOST_CLIENTS < self.count {
            return Err(Refusal::BadClients);
        }
        let mut left = layout.backups;
        for c in &self.clients[..self.count] {
            if client_bad(*c) {
                return Err(Refusal::BadClients);
            }
            left = left.checked_sub(c.reserved).ok_or(Refusal::BadClients)?;
        }
        Ok(())
    }

    // Refusal 13 for a write by this client, which must have a record.
    #[tactic(auto, using(crate::proofs::RunLaws::run_count), unfolding(model::specs::Status::first_error))]
    pub fn judge_client(self, layout: Layout, client: u64) -> Result<(), Refusal>
        ensures result_value { (R : Clients) → self ≡ loaded R → code_of result ≡ first_error (client_errors layout R client) }
        ensures client_lt_count { IfOk result (λ _. (client < self.count) × (self.count ≤ most_clients)) }
    {
        if self.count as u64 <= client {
            return Err(Refusal::BadClients);
        }
        self.judge(layout)
    }

    // ---- refusals 14 and 15

    // Whether the free backup segments do not exceed what the other clients have unused. What is left of the free ones is counted down,
    // and stays 0 once it is 0, so no sum can wrap.
    #[tactic(auto, using(crate::proofs::RunLaws::kept, model::proofs::Laws::Range::sum_none, model::proofs::Laws::Range::sum_more))]
    fn all_reserved(self, client: u64, free: u64) -> bool
        requires { self.count ≤ most_clients }
        ensures { result ≡ leb free (sum_to self.count (λ j. cond (eqb j client) 0 (unused (client_at self.clients j)))) }
    {
        let mut left = free;
        for (k, c) in self.clients[..self.count].iter().enumerate() {
            left = left_after(left, *c, k as u64 == client);
        }
        left == 0
    }

    // The first of refusals 14 and 15 that applies to a write by this client, while so many backup segments are free; neither does where
    // the write copies nothing.
    #[tactic(auto, using(crate::proofs::RunLaws::at_limit_lem, crate::proofs::RunLaws::under_limit), unfolding(model::specs::Status::first_error))]
    pub fn judge_share(self, client: u64, copying: bool, free: u64) -> Result<(), Refusal>
        requires { (client < most_clients) × (self.count ≤ most_clients) }
        ensures result_value { (R : Clients) → self ≡ loaded R → code_of result ≡ first_error (share_errors copying R client free) }
        ensures client_bound { IfOk result (λ _. copying ≡ true → (client_at self.clients client).used < (client_at self.clients client).quota) }
    {
        if !copying {
            return Ok(());
        }
        let c = self.clients[client as usize];
        if c.quota <= c.used {
            return Err(Refusal::QuotaReached);
        }
        if self.all_reserved(client, free) {
            return Err(Refusal::BackupsReserved);
        }
        Ok(())
    }

    // ---- after a write

    // What this client has taken after a served write, which may copy a main segment.
    #[tactic(auto, using(crate::proofs::RunLaws::run_at))]
    pub fn used_after(self, client: u64, copying: bool) -> u64
        requires client_lt_most_clients { client < most_clients }
        requires client_bound { copying ≡ true → (client_at self.clients client).used < (client_at self.clients client).quota }
        ensures { (R : Clients) → self ≡ loaded R → result ≡ cond copying (suc (client_at R client).used) (client_at R client).used }
    {
        let c = self.clients[client as usize];
        if copying { c.used + 1 } else { c.used }
    }

    // The record of a client of the run, with another number taken.
    #[tactic(auto, using(crate::proofs::RunLaws::run_at))]
    pub fn record_of(self, client: u64, used: u64) -> Client
        requires { client < most_clients }
        ensures { (R : Clients) → self ≡ loaded R → result ≡ with_used used (client_at R client) }
    {
        let c = self.clients[client as usize];
        Client { used, ..c }
    }
}

// Whether a record has a share above its limit, or more taken than the limit.
fn client_bad(c: Client) -> bool
    ensures { result ≡ client_bad c }
{
    c.quota < c.reserved || c.quota < c.used
}

// What is left of so many free backup segments after a client's unused share is set apart; nothing is set apart for the own one.
fn left_after(left: u64, c: Client, own: bool) -> u64
    ensures { result ≡ left - cond own 0 (unused c) }
{
    if own {
        return left;
    }
    left.saturating_sub(c.reserved.saturating_sub(c.used))
}
