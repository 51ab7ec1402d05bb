//! What a read is told.

ghost use Rattle.std.specs.Prelude.{◌≡◌, IfOk, false};
ghost use Rattle.model_answers.specs.ShopView.{ShopView};
ghost use Rattle.office_deliveries.specs.Deliveries.{is_write, request_done};
ghost use Rattle.office_deliveries.specs.Histories.{Running, IsRunning, TellsIt, after_act};
ghost use Rattle.office_deliveries.specs.Shops.{Views, IsAnswered, moment_at};
ghost use Rattle.office_once.specs.CallsLeave.{StandsWith};

use crate::shop::Shop;
use base_values::{Answer, Response};
use book_usage::Book;
use model_answers::Tables;
use office_deliveries::{Arrival, Request, Wording, worded};
use std::alloc::{AllocError, Global};

impl<T: Tables, B: Book, W: Wording> Shop<T, B, W> {
    // What a read is told, in words.
    #[tactic(auto, unfolding(office_deliveries::specs::Deliveries::request_done))]
    fn show(&self, alloc: Global, arrival: Arrival) -> Result<Response, AllocError>
        requires { is_write arrival.request ≡ false }
        ensures { IfOk result (λ response. response
            ≡ (request_done (W.words self.now.wording) arrival.request
            (moment_at arrival.clock self.now.state) arrival.draw self.now.state).1) }
    {
        let at = self.moment_at(arrival.clock);
        let Arrival { request, .. } = arrival;
        match request {
            Request::Read(query) => {
                let reply = self.office.ask(alloc, at, &query)?;
                worded(&self.wording, alloc, reply)
            }
            Request::ReadRefused(response) => Ok(response),
            Request::Write(_) => unreachable!(),
            Request::WriteRefused(_) => unreachable!(),
        }
    }

    // The answer to a read.
    fn shown(&self, alloc: Global, arrival: Arrival) -> Answer
        requires { is_write arrival.request ≡ false }
        ensures answered { (v : ShopView) → Views T.holds self.now.tables self.now.state v
            → IsAnswered (W.words self.now.wording) arrival v result (λ w. w ≡ v) }
    {
        match self.show(alloc, arrival) {
            Ok(response) => Answer::Decided(response),
            Err(_) => Answer::Unavailable,
        }
    }

    /// Answers a read at its moment, which isn't stored. It changes nothing.
    pub fn read(&self, alloc: Global, arrival: Arrival) -> Answer
        requires { is_write arrival.request ≡ false }
        ensures answered { (v : ShopView) → Views T.holds self.now.tables self.now.state v
            → IsAnswered (W.words self.now.wording) arrival v result (λ w. w ≡ v) }
        ensures stands { StandsWith (W.words self.now.wording) T.holds
            arrival result self.now self.now }
        ensures running { (r : Running) →
            let words = W.words self.now.wording in
            IsRunning words T.holds T.may_leave self.now.tables self.now.state r
            → (after_act words arrival result r ≡ r) × TellsIt words arrival result r.shop }
    {
        self.shown(alloc, arrival)
    }
}
