//! What becomes of one message, step by step.

ghost use Rattle.std.specs.Prelude.{◌≡◌, ◌++◌, List, [], ◌∷◌, IfOk};
ghost use Rattle.base_values.specs.declared.answer.Answer.TheVariants.{Unavailable};
ghost use Rattle.web_arrivals.specs.Deliveries.{Delivery, IsAnswered, Opening, Running, after_act, arrival_delivered, answer_told};
ghost use Rattle.model_answers.specs.CallsLeave.{KnowsStill, MayLeaveNoMore, OfItsHouse};
ghost use Rattle.model_answers.specs.ShopView.{ShopView};
ghost use Rattle.web_arrivals.specs.Coming.{arrival_with, number_of};
ghost use Rattle.web_arrivals.specs.HandlerView.{trait_meaning, reply_worded};
ghost use Rattle.web_arrivals.specs.Seen.{HasList, HasRunning, HasShop};
ghost use Rattle.web_arrivals.specs.Served.{ServesOnce};

use crate::handler::ShopHandler;
use base_devices::Tick;
use base_values::{Answer, Known};
use book_usage::Dues;
use model_answers::{Tables, TablesError};
use std::alloc::Global;
use web_arrivals::Arrival;
use web_http::Frame;

impl<T: Tables, B: Dues> ShopHandler<T, B> {
    // The number of the token that a message shows, if it is known. Nothing changes.
    pub(crate) fn number(&mut self, frame: &Frame<'_>) -> Result<Option<u64>, TablesError>
        ensures organizer { self.new.organizer ≡ self.old.organizer }
        ensures event { self.new.event ≡ self.old.event }
        ensures office { self.new.state ≡ self.old.state }
        ensures sure { T.sure self.new.tables → T.sure self.old.tables }
        ensures found { OfItsHouse T.sure T.knows self.old.tables self.new.tables
            (λ house. IfOk result (λ number. number ≡ number_of house.tokens frame.now)) }
        ensures same { let tables = trait_meaning T.Tables in T.sure self.new.tables
            → (v : ShopView) → HasShop tables self.old v → HasShop tables self.new v }
        ensures house { KnowsStill T.sure T.knows self.old.tables self.new.tables }
        ensures crash { MayLeaveNoMore T.may_leave self.old.tables self.new.tables }
    {
        match self.shop.wording().token_digest(frame) {
            None => Ok(None),
            Some(digest) => self.shop.token_of(&digest),
        }
    }

    // Has the shop answer an arrival.
    fn carry_out(&mut self, alloc: Global, arrival: Arrival) -> Answer
        ensures organizer { self.new.organizer ≡ self.old.organizer }
        ensures event { self.new.event ≡ self.old.event }
        ensures office { result ≡ Unavailable → self.new.state ≡ self.old.state }
        ensures sure { T.sure self.new.tables → T.sure self.old.tables }
        ensures house { KnowsStill T.sure T.knows self.old.tables self.new.tables }
        ensures served { let tables = trait_meaning T.Tables in T.sure self.new.tables
            → (v : ShopView) → HasShop tables self.old v
            → IsAnswered (reply_worded self.old) arrival v result (λ w. HasShop tables self.new w) }
        ensures stands { let tables = trait_meaning T.Tables in let words = reply_worded self.old in
            T.sure self.new.tables → (p : Opening) (ds : List Delivery)
            → HasList tables words self.old p ds
            → HasList tables words self.new p (ds ++ arrival_delivered arrival result ∷ [])
            × (answer_told words p ds (arrival_delivered arrival result) ≡ result) }
        ensures running { let tables = trait_meaning T.Tables in T.sure self.new.tables
            → (r : Running) → HasRunning tables (reply_worded self.old) self.old r
            → HasRunning tables (reply_worded self.old) self.new
            (after_act (reply_worded self.old) arrival result r) }
    {
        if arrival.request.is_write() {
            self.shop.act(alloc, arrival)
        } else {
            self.shop.read(alloc, arrival)
        }
    }

    // Answers a message whose token has this number, or none.
    pub(crate) fn answer(
        &mut self,
        alloc: Global,
        tick: Tick,
        frame: &Frame<'_>,
        number: Option<u64>,
    ) -> Answer
        ensures organizer { self.new.organizer ≡ self.old.organizer }
        ensures event { self.new.event ≡ self.old.event }
        ensures office { result ≡ Unavailable → self.new.state ≡ self.old.state }
        ensures sure { T.sure self.new.tables → T.sure self.old.tables }
        ensures once { T.sure self.new.tables
            → ServesOnce (trait_meaning T.Tables) (reply_worded self.old) self.old
            (arrival_with self.old.organizer self.old.event number tick frame.now) result self.new }
    {
        match self.shop.wording().arrival(alloc, tick, frame, number) {
            Ok(Ok(arrival)) => {
                arrival.recall_invariant();
                self.carry_out(alloc, arrival)
            }
            Ok(Err(response)) => Answer::Decided(response),
            Err(_) => Answer::Unavailable,
        }
    }
}
