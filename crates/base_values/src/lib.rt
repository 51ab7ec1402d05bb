//! What are a price, a moment, a code, a draw, a text and an answer?
#![tactic(auto)]

pub mod answer;
pub mod cents;
pub mod codes;
pub mod counts;
pub mod digits;
pub mod draw;
pub mod known;
pub mod laws;
pub mod list;
pub mod moment;
pub mod percent;
pub mod price_mode;
pub mod refusal;
pub mod secrets;
pub mod slug;
pub mod status_code;
pub mod steps;
pub mod text;

pub use answer::{Answer, Body, Methods, Response};
pub use cents::{Cents, cents_text, read_cents, total_text};
pub use codes::{order_code, read_code};
pub use counts::{MOST_PLACES, MOST_PRIORITY, MOST_USES, Priority, Size, Uses};
pub use digits::number_of;
pub use draw::Draw;
pub use known::Known;
pub use list::List;
pub use moment::Moment;
pub use percent::Percent;
pub use price_mode::{PriceMode, price_within};
pub use refusal::ValueRefusal;
pub use secrets::secret;
pub use slug::{Slug, is_slug};
pub use status_code::StatusCode;
pub use steps::Steps;
pub use text::{Text, is_text};
