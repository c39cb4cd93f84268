//! The first words of requests.
ghost use Rattle.std.specs.Prelude.{◌≡◌};
ghost use Rattle.request_text.specs.Phrases.{verb_word, verb_in};

/// The first word of a request.
#[derive(Clone, Copy)]
pub enum RequestVerb {
    Now,
    Status,
    Event,
    Request,
    Open,
    Close,
    Activate,
    Deactivate,
    Active,
    Check,
}

const REQUEST_VERBS: [RequestVerb; 10] = [
    RequestVerb::Now,
    RequestVerb::Status,
    RequestVerb::Event,
    RequestVerb::Request,
    RequestVerb::Open,
    RequestVerb::Close,
    RequestVerb::Activate,
    RequestVerb::Deactivate,
    RequestVerb::Active,
    RequestVerb::Check,
];

/// The word that a first word is written with.
pub(crate) fn verb_text(verb: RequestVerb) -> &'static [u8]
    ensures { result.now ≡ verb_word verb }
{
    match verb {
        RequestVerb::Now => b"now",
        RequestVerb::Status => b"status",
        RequestVerb::Event => b"event",
        RequestVerb::Request => b"request",
        RequestVerb::Open => b"open",
        RequestVerb::Close => b"close",
        RequestVerb::Activate => b"activate",
        RequestVerb::Deactivate => b"deactivate",
        RequestVerb::Active => b"active",
        RequestVerb::Check => b"check",
    }
}

/// The first word of a request that a word is. What is asked most is looked at first.
pub(crate) fn request_verb(word: &[u8]) -> Option<RequestVerb>
    ensures { result ≡ verb_in word.now }
{
    if word == b"check".as_slice() {
        return Some(RequestVerb::Check);
    }
    REQUEST_VERBS
        .iter()
        .copied()
        .find(|verb| verb_text(*verb) == word)
}
