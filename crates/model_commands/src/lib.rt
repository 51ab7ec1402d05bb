//! What can be asked of the box office, what does it reply, and which rows are on a page?
#![tactic(auto)]

pub mod carts;
pub mod doors;
pub mod orders;
pub mod pages;
pub mod replies;
pub mod requests;
pub mod vouchers;
pub mod waiting;

pub use carts::{Asked, Entry, NewCart, Outcome};
pub use doors::{DoorRefusal, DoorStatus, ListedTicket, NewCheckinList, Scan, Ticket};
pub use orders::{Move, NewOrder, OrderRefusal, Start};
pub use replies::{Page, Refusal, Reply, Shown};
pub use requests::{Command, Kind, Query, Resource};
pub use vouchers::{NewVoucher, Verdict, VoucherPatch, VoucherRefusal};
pub use waiting::{NewWaiting, PeriodicCounts, WaitingPatch, WaitingRefusal};
