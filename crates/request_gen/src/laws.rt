//! What the definitions imply.
ghost use Rattle.std.specs.Prelude.{◌≡◌, ◌<◌, ◌≤◌, [], ◌∷◌, ℕ};
ghost use Rattle.std.specs.List.{AllByRecursion};
ghost use Rattle.flake_base.specs.declared.session.End.{End};
ghost use Rattle.flake_model.specs.Resp.{Parses};
ghost use Rattle.flake_model.specs.Command.{command_of};
ghost use Rattle.request_gen.specs.Commands.{command_for};
ghost use Rattle.request_gen.specs.Draws.{draws_from};
ghost use Rattle.request_gen.specs.Requests.{IsRequest, requests_from};
ghost use Rattle.request_gen.specs.Words.{all_words, requests_text, generated_words};
ghost use Rattle.request_gen.specs.declared.request.Key.{Key};
ghost use Rattle.request_gen.specs.declared.request.DrawnRequest.{DrawnRequest};

/// The first five states from 0, and what each draw gives.
pub fn worked_draws()
    ensures { draws_from 5 0 ≡ (1_013_904_223, 15_470) ∷ (1_196_435_762, 18_256) ∷ (3_519_870_697, 53_708)
        ∷ (2_868_466_484, 43_769) ∷ (1_649_599_747, 25_170) ∷ [] }
{}

/// The first requests from 0 that are picked: a GET of shared key 0, and a SET of own key 9.
pub fn worked_requests()
    ensures { requests_from 2 32 0 ≡ DrawnRequest.Get (Key.Shared 0) ∷ DrawnRequest.Set (Key.Own 9) 7168 ∷ [] }
{}

/// Any number of requests from any state are ones that sessions make.
pub fn requests_are_allowed()
    ensures { (count r state : ℕ) → AllByRecursion IsRequest (requests_from count r state) }
{}

/// What is generated is whole requests, and these: none is cut, and none is wrong.
pub fn generated_input_is_clean()
    ensures { (number session count : ℕ) → session < 16 → count ≤ 4000
        → Parses (requests_text (all_words number session count)) (all_words number session count) End.Clean }
{}

/// Each is the command that it is meant to be, which passes all tests.
pub fn no_request_is_refused()
    ensures { (session : ℕ) (request : DrawnRequest) → session < 16 → IsRequest request
        → command_of (generated_words session request) ≡ command_for session request }
{}
