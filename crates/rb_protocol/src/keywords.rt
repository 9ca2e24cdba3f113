ghost use Rattle.std.specs.Prelude.{◌≡◌, ℕ, List, IfSome, IfNone};
ghost use Rattle.rb_protocol.specs.Form.{form_of, nothing, number, number_and_payload, Takes};
ghost use Rattle.rb_protocol.specs.Keywords.{number_request, offer_request};

use crate::request::Request;
use rb_delayed::Payload;

/// A keyword that takes a number.
#[derive(Clone, Copy)]
pub(crate) enum NumberKeyword {
    PollFor,
    Remove,
    Drain,
    Done,
    Fail,
    At,
}

/// A keyword that takes a number and a payload.
#[derive(Clone, Copy)]
pub(crate) enum OfferKeyword {
    Offer,
    OfferAt,
}

/// The request of a keyword that takes no argument.
pub(crate) fn read_alone(word: &[u8]) -> Option<Request>
    ensures some { IfSome result (λ request. form_of request
        ≡ record { keyword = word.now; arguments = nothing }) }
    ensures none { IfNone result (¬ Takes word.now 0) }
{
    match word {
        b"POLL" => Some(Request::Poll),
        b"TAKE" => Some(Request::Take),
        b"PEEK" => Some(Request::Peek),
        b"CLEAR" => Some(Request::Clear),
        b"SIZE" => Some(Request::Size),
        b"QUIT" => Some(Request::Quit),
        _ => None,
    }
}

impl NumberKeyword {
    /// The keyword that the word is, or `None` if it is none of them.
    pub(crate) fn read(word: &[u8]) -> Option<NumberKeyword>
        ensures some { IfSome result (λ keyword. (value : ℕ)
            → form_of (number_request keyword value)
            ≡ record { keyword = word.now; arguments = number value }) }
        ensures none { IfNone result (¬ Takes word.now 1) }
    {
        match word {
            b"POLLFOR" => Some(NumberKeyword::PollFor),
            b"REMOVE" => Some(NumberKeyword::Remove),
            b"DRAIN" => Some(NumberKeyword::Drain),
            b"DONE" => Some(NumberKeyword::Done),
            b"FAIL" => Some(NumberKeyword::Fail),
            b"AT" => Some(NumberKeyword::At),
            _ => None,
        }
    }

    /// The request with this number.
    pub(crate) fn request(self, number: u64) -> Request
        ensures { result ≡ number_request self number }
    {
        match self {
            NumberKeyword::PollFor => Request::PollFor(number),
            NumberKeyword::Remove => Request::Remove(number),
            NumberKeyword::Drain => Request::Drain(number),
            NumberKeyword::Done => Request::Done(number),
            NumberKeyword::Fail => Request::Fail(number),
            NumberKeyword::At => Request::At(number),
        }
    }
}

impl OfferKeyword {
    /// The keyword that the word is, or `None` if it is none of them.
    pub(crate) fn read(word: &[u8]) -> Option<OfferKeyword>
        ensures some { IfSome result (λ keyword. (value : ℕ) (payload : List ℕ)
            → form_of (offer_request keyword value payload)
            ≡ record { keyword = word.now; arguments = number_and_payload value payload }) }
        ensures none { IfNone result (¬ Takes word.now 2) }
    {
        match word {
            b"OFFER" => Some(OfferKeyword::Offer),
            b"OFFERAT" => Some(OfferKeyword::OfferAt),
            _ => None,
        }
    }

    /// The request with this number and this payload.
    pub(crate) fn request(self, number: u64, payload: Payload) -> Request
        ensures { result ≡ offer_request self number payload }
    {
        match self {
            OfferKeyword::Offer => Request::Offer {
                delay: number,
                payload,
            },
            OfferKeyword::OfferAt => Request::OfferAt {
                expiry: number,
                payload,
            },
        }
    }
}
