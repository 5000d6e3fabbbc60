//! Theorems about all requests.

ghost use Rattle.std.specs.Prelude.{◌≡◌, ◌≢◌, ◌↔◌, ◌<◌, ℕ, List, ◌++◌, length};
ghost use Rattle.httparse.specs.Grammar.{RequestHead};
ghost use Rattle.values.specs.declared.refusal.Refusal.{Refusal};
ghost use Rattle.http_requests.specs.declared.limits.TheConstants.{MAX_HEAD, MAX_HEADER_LINES, MAX_BODY};
ghost use Rattle.http_requests.specs.Asks.{Ask, Asks, HeadAsks, IsLawfulAsk, refused};
ghost use Rattle.http_requests.specs.BodySizes.{WantsBody};
ghost use Rattle.http_requests.specs.Paths.{Path, IsPath, path_text};

/// Distinct paths have distinct texts.
pub fn texts_tell_paths()
    ensures { (p q : Path) → IsPath p → IsPath q → path_text p ≡ path_text q → p ≡ q }
{}

/// A request has at most one reading.
pub fn one_ask()
    ensures { (bytes : List ℕ) (a b : Ask) → Asks bytes a → Asks bytes b → a ≡ b }
{}

/// What is asked for is valid: a refusal is one of the first six, the names and the serial are valid, and the message
/// is no longer than a body may be.
pub fn asks_are_lawful()
    ensures { (bytes : List ℕ) (a : Ask) → Asks bytes a → IsLawfulAsk a }
{}

/// Bytes after the request change nothing: only a request without a good head, or with a short body, may ask for
/// something else when more bytes come.
pub fn later_bytes_change_nothing()
    ensures { (bytes more : List ℕ) (a : Ask) → Asks bytes a → a ≢ refused Refusal.BadHead
        → a ≢ refused Refusal.ShortBody → Asks (bytes ++ more) a }
{}

/// A request is refused for a short body exactly when fewer bytes follow its head than the head asks for.
pub fn short_bodies_are_below_the_size()
    ensures { (h : RequestHead) (n : ℕ) (rest : List ℕ) (a : Ask) → WantsBody h n → HeadAsks h rest a
        → (a ≡ refused Refusal.ShortBody) ↔ (length rest < n) }
{}

/// The limits of a request are the numbers in the definitions.
pub fn limits_of_requests()
    ensures head { MAX_HEAD ≡ 8192 }
    ensures lines { MAX_HEADER_LINES ≡ 32 }
    ensures body { MAX_BODY ≡ 16384 }
{}
