//! Laws of every run over a stream.

ghost use Rattle.std.specs.Prelude.{ℕ, List, Option, Some, Err};
ghost use Rattle.base_devices.specs.Reported.{Gives};
ghost use Rattle.web_http.specs.Messages.{Messages};
ghost use Rattle.web_connection.specs.Failures.{failure_number};
ghost use Rattle.web_connection.specs.Run.{Item, AreAll, Counts, CountedAll, NumberCounted};
ghost use Rattle.web_connection.specs.declared.failure.Failure.{Failure};

/// Where the bytes of a stream are known, the messages that a run answers are those of the whole stream, however it was cut.
pub fn all_are_answered()
    ensures { (all front : List ℕ) (after : Option (List ℕ)) (items : List Item)
        → Gives (Some all) front after → AreAll front after items → Messages all items }
{}

/// A run ends with the number of a device only where that device counted a failure, or the limit of its reads was met: want
/// of memory has a number of its own.
pub fn numbers_are_counted()
    ensures { (failure : Failure) (old new : Counts)
        → CountedAll (Err failure) old new → NumberCounted (failure_number failure) old new }
{}
