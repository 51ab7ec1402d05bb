//! A shop that answers messages.

ghost use Rattle.std.specs.Prelude.{◌≡◌, IfOk};
ghost use Rattle.web_arrivals.specs.HandlerView.{HandlerView, handler_with, meaning};
ghost use Rattle.web_arrivals.specs.Served.{Serves};

use base_devices::Tick;
use base_values::Answer;
use book_usage::{Book, Dues};
use model_answers::Tables;
use office_once::{Office, Shop};
use std::alloc::{AllocError, Global};
use std::marker::Model;
use web_arrivals::HttpWording;
use web_connection::Handler;
use web_http::Frame;

/// A shop that answers messages. Contracts see the short names of its organizer and its event, its tables, and the rows of its
/// office.
#[derive(Drop)]
pub struct ShopHandler<T: Tables, B: Book> {
    pub(crate) shop: Shop<T, B, HttpWording>,
}

impl<T: Tables, B: Book> Model for ShopHandler<T, B> {
    ghost use Rattle.web_arrivals.specs.HandlerView.{HandlerView};

    ghost Value = { HandlerView T };

    ghost view = { λ d. record {
      organizer = d.shop.wording.organizer;
      event = d.shop.wording.event;
      tables = d.shop.tables;
      state = d.shop.state;
    } };
}

impl<T: Tables + Drop, B: Book + Drop> ShopHandler<T, B> {
    /// The handler of an office, over tables that hold its rows.
    pub fn over(alloc: Global, tables: T, office: Office<B>) -> Result<Self, AllocError>
        ensures { IfOk result
            (λ handler. handler ≡ handler_with tables office.organizer office.event office.state) }
    {
        let words = HttpWording::new(alloc, office.organizer(), office.event())?;
        Ok(ShopHandler::with_words(tables, office, words))
    }

    /// The handler of an office, where the words of its answers were made before.
    pub fn with_words(tables: T, office: Office<B>, words: HttpWording) -> Self
        ensures { result ≡ handler_with tables words.organizer words.event office.state }
    {
        ShopHandler {
            shop: Shop::over(tables, office, words),
        }
    }

    /// The tables.
    pub fn into_tables(self) -> T
        ensures { result ≡ self.tables }
    {
        self.shop.into_tables()
    }
}

impl<T: Tables, B: Dues> Handler for ShopHandler<T, B> {
    ghost serves = { Serves (meaning T.sure T.holds T.knows T.may_leave) };

    fn serve(&mut self, alloc: Global, tick: Tick, frame: &Frame<'_>) -> Answer {
        match self.number(frame) {
            Ok(number) => self.answer(alloc, tick, frame, number),
            Err(_) => Answer::Unavailable,
        }
    }
}
