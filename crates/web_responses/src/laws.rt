//! Laws of the words.

ghost use Rattle.std.specs.Prelude.{◌≡◌, ◌++◌, ℕ, List, Some, true, false, codes};
ghost use Rattle.httparse.specs.Grammar.{IsToken};
ghost use Rattle.base_values.specs.declared.answer.Methods.{Methods};
ghost use Rattle.model_commands.specs.declared.replies.Reply.{Reply};
ghost use Rattle.web_responses.specs.Responses.{response, detail_body};
ghost use Rattle.web_responses.specs.Faults.{method_not_allowed};
ghost use Rattle.web_responses.specs.Replies.{words};
ghost use Rattle.web_responses.specs.Statuses.{is_given};

/// A method of a head is a token, and stands in the text of the 405 byte for byte.
pub fn methods_stand_as_given()
    ensures { (method : List ℕ) (methods : Methods)
        → IsToken method → method_not_allowed method methods
        ≡ response 405 (Some methods)
        (detail_body (codes "Method \"" ++ method ++ codes "\" not allowed.")) }
{}

/// Each reply has one of twelve statuses; none of them is 409, 429 or 500.
pub fn replies_have_given_statuses()
    ensures replies { (organizer event : List ℕ) (reply : Reply)
        → is_given (words organizer event reply).status ≡ true }
    ensures no_conflict { is_given 409 ≡ false }
    ensures no_limit { is_given 429 ≡ false }
    ensures no_fault_of_ours { is_given 500 ≡ false }
{}
