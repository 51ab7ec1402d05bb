//! Laws of every list of arrivals, and of every history with crashes.

ghost use Rattle.std.specs.Prelude.{◌≡◌, ◌++◌, List, [], ◌∷◌};
ghost use Rattle.base_values.specs.declared.answer.Answer.{Answer};
ghost use Rattle.base_values.specs.declared.answer.Response.{Response};
ghost use Rattle.model_rows.specs.Lists.{State};
ghost use Rattle.model_commands.specs.declared.replies.Reply.{Reply};
ghost use Rattle.office_deliveries.specs.declared.arrival.Arrival.{Arrival};
ghost use Rattle.office_deliveries.specs.Deliveries.{Delivery, Opening, firsts, answers_kept, told_after};
ghost use Rattle.model_answers.specs.KeptAnswers.{AreOneForEachKey};
ghost use Rattle.model_answers.specs.ShopView.{ShopView};
ghost use Rattle.office_deliveries.specs.Shops.{ServesAll, Stands, delivered_all, shop_after};
ghost use Rattle.office_deliveries.specs.Headline.{TwoArrivals, ToldAgain, ExecutedAnew, AreADayApart};
ghost use Rattle.office_deliveries.specs.Histories.{Event, Running, Happens, ComesTo, MayLeave, IsRunning, Reopened, after_act, event_of, running_from};
ghost use Rattle.office_deliveries.specs.Shops.{AreKeyless};

use model_answers::Tables;

/// Whatever arrivals come to a shop, answered 503 or not, it stands for them too: its office and its kept answers are those
/// of the small box office run once on each executed write, and each arrival is told what is told of that run.
pub fn answers_are_those_of_one_run()
    ensures { (words : Reply → Response) (p : Opening) (ds : List Delivery)
        (old : ShopView) (arrivals : List Arrival) (answers : List Answer) (new : ShopView)
        → Stands words p ds old → ServesAll words arrivals old answers new
        → Stands words p (ds ++ delivered_all arrivals answers) new
        × (told_after words p ds (delivered_all arrivals answers) ≡ answers) }
{}

/// The shop of an opening stands for no arrival yet.
pub fn openings_stand()
    ensures { (words : Reply → Response) (p : Opening) → Stands words p [] (shop_after words p []) }
{}

/// A repeat that comes before a day has passed since its first arrival was executed is told what that was told, whatever it
/// asks for, and whatever came between.
pub fn repeats_are_answered_again()
    ensures { (words : Reply → Response) (t : TwoArrivals) → ToldAgain words t }
{}

/// A request that comes when a day has passed, and no other request with its key between, is executed anew.
pub fn after_a_day_it_is_executed_anew()
    ensures { (t : TwoArrivals) → ExecutedAnew t }
{}

/// Two executions under one key of one token are a day apart, or more: within a day each request acts once.
pub fn executions_are_a_day_apart()
    ensures { (p : Opening) (ds : List Delivery) → AreADayApart (firsts p ds) }
{}

/// No token has a key twice among what is kept, so that an arrival repeats one answer at most.
pub fn one_answer_for_each_key()
    ensures { (words : Reply → Response) (p : Opening) (ds : List Delivery)
        → AreOneForEachKey p.kept → AreOneForEachKey (answers_kept words p (firsts p ds)) }
{}

/// Whatever happens to a shop, with crashes at any moments, after each of which it is opened again: it stands for the list
/// of its arrivals in which at most one undecided write before each crash was carried out, whole, and each other one not at
/// all; and each answer is the one that is told of that list. Each write that was answered other than 503 is in it.
pub fn histories_come_to_one_run()
    ensures { (words : Reply → Response) (p : Opening) (events : List Event) (end : Running)
        → Happens words (running_from words (shop_after words p [])) events end
        → (whole : List Delivery) × ComesTo words p [] [] events whole
        × Stands words p whole end.shop }
{}

/// Tables that a crash left of a running shop, once they are opened, are those of what it may leave: the shop as it was, or
/// with one undecided write carried out.
pub fn reopened_shops_run<T: Tables>()
    ensures { (words : Reply → Response) (before after : T) (state : State)
        (left : ShopView) (r : Running)
        → IsRunning words T.holds T.may_leave before state r
        → Reopened T.holds T.may_leave before after left
        → (x : ShopView) × MayLeave words r x
        × IsRunning words T.holds T.may_leave after left.state (running_from words x) }
{}

/// What is answered without a key is kept nowhere, so a shop is the same in whatever words it is told. A running shop whose undecided
/// writes have no key, as one has none that was just opened, is running in any other words; a write without key that was carried out in
/// some words is, in any other, the event that the same write is in these; and a shop that stands for a list of arrivals stands for none
/// yet, in any words, from the opening with its rows and its answers.
pub fn shops_run_in_any_words<T: Tables>()
    ensures runs { (words other : Reply → Response) (tables : T) (state : State) (r : Running)
        → AreKeyless r.undecided → IsRunning words T.holds T.may_leave tables state r
        → IsRunning other T.holds T.may_leave tables state r }
    ensures acts { (words other : Reply → Response) (a : Arrival) (answer : Answer)
        (tables : T) (state : State) (r : Running)
        → a.key ≡ [] → AreKeyless r.undecided
        → IsRunning words T.holds T.may_leave tables state (after_act words a answer r)
        → IsRunning other T.holds T.may_leave tables state (after_act other a answer r)
        × Happens other r (event_of other a answer r.shop ∷ []) (after_act other a answer r) }
    ensures stands { (words other : Reply → Response) (p : Opening) (ds : List Delivery)
        (shop : ShopView) → Stands words p ds shop
        → Stands other (record { state = shop.state; kept = shop.kept }) [] shop }
{}
