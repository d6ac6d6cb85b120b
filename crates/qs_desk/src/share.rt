//! What a client has booked, as it knows and as the desk knows.

ghost use Rattle.std.specs.Prelude.{◌≡◌, ◌+◌, ◌<◌, ◌∷◌, [], slice_index, slice_set, replicate, nat_lt, map};
ghost use Rattle.qs_program.specs.audit.Limits.{most_blocks, most_clients};
ghost use Rattle.qs_program.specs.audit.Program.{blocks_of};
ghost use Rattle.qs_desk.specs.Places.{client_of_ledger, parts_of, amount_of, share_at, places};
ghost use Rattle.qs_desk.specs.Plans.{lists_of_program};
ghost use Rattle.qs_desk.specs.Tickets.{ticket};

use crate::name::DeskName;
use crate::plan::ReservedLists;
use qs_objects::Ticket;
use qs_program::MOST_CLIENTS;
use std::marker::{Model, PhantomData};
use std::sync::ledger::{self, Blank, Book, Ledger};

/// The ledger of the client with this number.
pub struct ClientLedger<D: DeskName, const CLIENT: u8> {
    of: PhantomData<D>,
}

impl<D: DeskName, const CLIENT: u8> Ledger for ClientLedger<D, CLIENT> {
    ghost use Rattle.std.specs.Prelude.{slice_index};

    ghost name = { slice_index D.ledgers CLIENT };

    ghost parts = { 1 };
}

/// The whole of one client's ledger.
#[derive(Drop)]
pub enum LedgerShare<D: DeskName> {
    First(ledger::Share<ClientLedger<D, 0>>),
    Second(ledger::Share<ClientLedger<D, 1>>),
    Third(ledger::Share<ClientLedger<D, 2>>),
    Fourth(ledger::Share<ClientLedger<D, 3>>),
    Fifth(ledger::Share<ClientLedger<D, 4>>),
    Sixth(ledger::Share<ClientLedger<D, 5>>),
    Seventh(ledger::Share<ClientLedger<D, 6>>),
    Eighth(ledger::Share<ClientLedger<D, 7>>),
}

/// A client's share of a desk: how many blocks the client has booked there. A desk has one for each client.
pub struct Share<D: DeskName> {
    client: u8,
    count: u8,
    blocks: usize,
    ledger_share: LedgerShare<D>,
}

impl<D: DeskName> Drop for Share<D> {
    fn drop(self) {
        let Share {
            client: _,
            count: _,
            blocks: _,
            ledger_share: _,
        } = self;
    }
}

impl<D: DeskName> Model for Share<D> {
    ghost use Rattle.std.specs.Prelude.{◌≡◌};
    ghost use Rattle.qs_program.specs.audit.Program.{blocks_of};
    ghost use Rattle.qs_desk.specs.Places.{client_of_ledger, parts_of, amount_of};
    ghost use Rattle.qs_desk.specs.Views.{ShareView};

    ghost Value = { ShareView };

    ghost view = { λ s. record { client = s.client; count = s.count } };

    ghost invariant = { λ s.
        (s.client ≡ client_of_ledger s.ledger_share) × (parts_of s.ledger_share ≡ 1) × (s.count ≡ amount_of s.ledger_share) × (s.blocks ≡ blocks_of D.program s.client) };
}

impl<D: DeskName> Share<D> {
    /// Whose share it is.
    pub fn client(&self) -> u8
        ensures client { result ≡ self.now.client }
    {
        self.client
    }

    /// How many blocks the client has booked.
    pub fn count(&self) -> u8
        ensures count { result ≡ self.now.count }
    {
        self.count
    }

    /// Whether the client has a block left to book.
    pub fn left(&self) -> bool
        ensures left { result ≡ nat_lt self.now.count (blocks_of D.program self.now.client) }
    {
        usize::from(self.count) < self.blocks
    }

    /// The client's next block.
    pub(crate) fn next(&self) -> Ticket
        ensures ticket { result ≡ ticket self.now.client self.now.count }
    {
        Ticket {
            client: self.client,
            index: self.count,
        }
    }
}

// The share of a client that the program has.
fn first_share<D: DeskName>(
    plan: &ReservedLists,
    client: u8,
    ledger_share: LedgerShare<D>,
) -> Option<Share<D>>
    requires plan { plan.now ≡ lists_of_program D.program }
    requires ledger_share { (client_of_ledger ledger_share ≡ client) × (parts_of ledger_share ≡ 1) × (amount_of ledger_share ≡ 0) }
    ensures share { result ≡ share_at D.program client }
{
    if usize::from(client) >= plan.clients() {
        return None;
    }
    Some(Share {
        client,
        count: 0,
        blocks: plan.blocks_of(client),
        ledger_share,
    })
}

/// How many blocks each client has booked, as the desk counts them.
pub struct Books<D: DeskName> {
    first: Book<ClientLedger<D, 0>>,
    second: Book<ClientLedger<D, 1>>,
    third: Book<ClientLedger<D, 2>>,
    fourth: Book<ClientLedger<D, 3>>,
    fifth: Book<ClientLedger<D, 4>>,
    sixth: Book<ClientLedger<D, 5>>,
    seventh: Book<ClientLedger<D, 6>>,
    eighth: Book<ClientLedger<D, 7>>,
}

impl<D: DeskName> Drop for Books<D> {
    fn drop(self) {
        let Books {
            first: _,
            second: _,
            third: _,
            fourth: _,
            fifth: _,
            sixth: _,
            seventh: _,
            eighth: _,
        } = self;
    }
}

impl<D: DeskName> Model for Books<D> {
    ghost use Rattle.std.specs.Prelude.{List, ℕ, [], ◌∷◌};

    ghost Value = { List ℕ };

    ghost view = { λ b.
        b.first.total ∷ b.second.total ∷ b.third.total ∷ b.fourth.total ∷ b.fifth.total ∷ b.sixth.total ∷ b.seventh.total ∷ b.eighth.total ∷ [] };
}

/// Ledgers that have no type yet, one for each client.
#[derive(Drop)]
pub struct BlankLedgers {
    first: Blank,
    second: Blank,
    third: Blank,
    fourth: Blank,
    fifth: Blank,
    sixth: Blank,
    seventh: Blank,
    eighth: Blank,
}

impl Model for BlankLedgers {
    ghost use Rattle.std.specs.Prelude.{◌≡◌, List, ℕ, [], ◌∷◌};

    ghost Value = { List ℕ };

    ghost view = { λ b.
        b.first.name ∷ b.second.name ∷ b.third.name ∷ b.fourth.name ∷ b.fifth.name ∷ b.sixth.name ∷ b.seventh.name ∷ b.eighth.name ∷ [] };

    ghost invariant = { λ b.
        (b.first.parts ≡ 1) × (b.second.parts ≡ 1) × (b.third.parts ≡ 1) × (b.fourth.parts ≡ 1)
        × (b.fifth.parts ≡ 1) × (b.sixth.parts ≡ 1) × (b.seventh.parts ≡ 1) × (b.eighth.parts ≡ 1) };
}

impl BlankLedgers {
    pub(crate) fn new() -> BlankLedgers {
        BlankLedgers {
            first: Blank::new(1),
            second: Blank::new(1),
            third: Blank::new(1),
            fourth: Blank::new(1),
            fifth: Blank::new(1),
            sixth: Blank::new(1),
            seventh: Blank::new(1),
            eighth: Blank::new(1),
        }
    }

    /// Books in which nothing is booked, and the shares of the clients that there are.
    pub(crate) fn open<D: DeskName>(
        self,
        plan: &ReservedLists,
    ) -> (Books<D>, [Option<Share<D>>; MOST_CLIENTS])
        requires ledgers { D.ledgers ≡ self }
        requires plan { plan.now ≡ lists_of_program D.program }
        ensures books { result.0 ≡ replicate most_clients 0 }
        ensures shares { result.1 ≡ map (share_at D.program) places }
    {
        let (first, a) = self.first.open::<ClientLedger<D, 0>>();
        let (second, b) = self.second.open::<ClientLedger<D, 1>>();
        let (third, c) = self.third.open::<ClientLedger<D, 2>>();
        let (fourth, d) = self.fourth.open::<ClientLedger<D, 3>>();
        let (fifth, e) = self.fifth.open::<ClientLedger<D, 4>>();
        let (sixth, f) = self.sixth.open::<ClientLedger<D, 5>>();
        let (seventh, g) = self.seventh.open::<ClientLedger<D, 6>>();
        let (eighth, h) = self.eighth.open::<ClientLedger<D, 7>>();
        let books = Books {
            first,
            second,
            third,
            fourth,
            fifth,
            sixth,
            seventh,
            eighth,
        };
        let shares = [
            first_share(plan, 0, LedgerShare::First(a)),
            first_share(plan, 1, LedgerShare::Second(b)),
            first_share(plan, 2, LedgerShare::Third(c)),
            first_share(plan, 3, LedgerShare::Fourth(d)),
            first_share(plan, 4, LedgerShare::Fifth(e)),
            first_share(plan, 5, LedgerShare::Sixth(f)),
            first_share(plan, 6, LedgerShare::Seventh(g)),
            first_share(plan, 7, LedgerShare::Eighth(h)),
        ];
        (books, shares)
    }
}

// One more block in a client's ledger.
fn count_one<L: Ledger>(book: &mut Book<L>, ledger_share: &mut ledger::Share<L>)
    requires whole { (ledger_share.old.parts ≡ 1) × (L.parts ≡ 1) }
    ensures before { ledger_share.old.amount ≡ book.old.total }
    ensures book { book.new.total ≡ book.old.total + 1 }
    ensures ledger_share { (ledger_share.new.amount ≡ ledger_share.old.amount + 1) × (ledger_share.new.parts ≡ 1) }
{
    book.audit(ledger_share);
    book.add(ledger_share, 1);
}

impl<D: DeskName> Books<D> {
    /// The share's count is what the books have of its client.
    pub(crate) fn check(&mut self, share: &mut Share<D>)
        ensures same { (self.new ≡ self.old) × (share.new ≡ share.old) }
        ensures count { slice_index self.old share.old.client ≡ share.old.count }
        ensures place { share.old.client < most_clients }
    {
        let books = self;
        match &mut share.ledger_share {
            LedgerShare::First(ledger_share) => books.first.audit(ledger_share),
            LedgerShare::Second(ledger_share) => books.second.audit(ledger_share),
            LedgerShare::Third(ledger_share) => books.third.audit(ledger_share),
            LedgerShare::Fourth(ledger_share) => books.fourth.audit(ledger_share),
            LedgerShare::Fifth(ledger_share) => books.fifth.audit(ledger_share),
            LedgerShare::Sixth(ledger_share) => books.sixth.audit(ledger_share),
            LedgerShare::Seventh(ledger_share) => books.seventh.audit(ledger_share),
            LedgerShare::Eighth(ledger_share) => books.eighth.audit(ledger_share),
        }
    }

    /// Counts one more block of the share's client, which has one left.
    pub(crate) fn count(&mut self, share: &mut Share<D>)
        requires left { share.old.count < most_blocks }
        ensures before { slice_index self.old share.old.client ≡ share.old.count }
        ensures place { share.old.client < most_clients }
        ensures books { self.new ≡ slice_set self.old share.old.client (share.old.count + 1) }
        ensures share { share.new ≡ record share.old { count = share.old.count + 1 } }
    {
        let books = self;
        match &mut share.ledger_share {
            LedgerShare::First(ledger_share) => count_one(&mut books.first, ledger_share),
            LedgerShare::Second(ledger_share) => count_one(&mut books.second, ledger_share),
            LedgerShare::Third(ledger_share) => count_one(&mut books.third, ledger_share),
            LedgerShare::Fourth(ledger_share) => count_one(&mut books.fourth, ledger_share),
            LedgerShare::Fifth(ledger_share) => count_one(&mut books.fifth, ledger_share),
            LedgerShare::Sixth(ledger_share) => count_one(&mut books.sixth, ledger_share),
            LedgerShare::Seventh(ledger_share) => count_one(&mut books.seventh, ledger_share),
            LedgerShare::Eighth(ledger_share) => count_one(&mut books.eighth, ledger_share),
        }
        share.count += 1;
    }
}
