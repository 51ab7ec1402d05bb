//! A case that a shop answers whose file is open.

use crate::case::{Answers, WHOLE, answer_case};
use base_devices::{Drain, Source, Ticks};
use book_usage::Dues;
use model_answers::Tables;
use std::alloc::Global;
use web_connection::{Buffers, Failure, Handler, run_stream};
use web_handler::{HttpWording, Office, ShopHandler};

/// The tables of a shop that answered a case; how it ended, and what was written.
pub(crate) struct Answered<T> {
    pub(crate) tables: T,
    pub(crate) told: anyhow::Result<Vec<u8>>,
}

/// A handler that answers a stream.
struct AtHandler<'a, K: Handler> {
    handler: &'a mut K,
}

impl<K: Handler> Answers for AtHandler<'_, K> {
    fn answer<R: Source, T: Ticks, W: Drain>(
        &mut self,
        alloc: Global,
        reader: &mut R,
        ticks: &mut T,
        writer: &mut W,
    ) -> Result<(), Failure> {
        let Ok(mut buffers) = Buffers::new(alloc) else {
            return Err(Failure::Memory);
        };
        run_stream(alloc, &mut buffers, reader, ticks, self.handler, writer)
    }
}

// How a case ends and what is written, where this handler answers it.
fn answer_at<K: Handler>(alloc: Global, case: &[u8], handler: &mut K) -> anyhow::Result<Vec<u8>> {
    let mut at = AtHandler { handler };
    let told = answer_case(alloc, case, WHOLE, &mut at);
    let AtHandler { handler: _ } = at;
    told
}

// How a case ends and what is written, and the tables of the handler that answers it.
fn answer_shop<T: Tables + Drop, B: Dues + Drop>(
    alloc: Global,
    case: &[u8],
    mut handler: ShopHandler<T, B>,
) -> Answered<T> {
    let told = answer_at(alloc, case, &mut handler);
    Answered {
        tables: handler.into_tables(),
        told,
    }
}

// The tables that were opened together with something else, which is let go as a whole.
fn tables_of<T, O: Drop>(opened: (T, O)) -> T {
    opened.0
}

/// How a case ends, and in the lines below what is written, where the shop of an office answers it, over the tables that were opened with
/// it; and the tables.
pub(crate) fn answer_opened<T: Tables + Drop, B: Dues + Drop>(
    alloc: Global,
    case: &[u8],
    opened: (T, Office<B>),
) -> Answered<T> {
    match HttpWording::new(alloc, opened.1.organizer(), opened.1.event()) {
        Ok(words) => {
            let (tables, office) = opened;
            answer_shop(alloc, case, ShopHandler::with_words(tables, office, words))
        }
        Err(error) => Answered {
            tables: tables_of(opened),
            told: Err(anyhow::Error::from(error)),
        },
    }
}
