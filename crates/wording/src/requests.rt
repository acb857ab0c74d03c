// The requests of a run as words, two for each: kind and page.
ghost use Rattle.std.specs.Prelude.{◌/◌, ◌<◌, ◌≡◌, length};
ghost use Rattle.replies.specs.Model.{request};
ghost use Rattle.wording.specs.Asked.{words_at};

use replies::Request;

pub const REQUEST_WORDS: usize = 2;

pub fn request_at(requests: &[u32], i: usize) -> Request
    requires { i < length requests.now / 2 }
    ensures { request result ≡ words_at requests.now i }
{
    Request {
        kind: requests[REQUEST_WORDS * i],
        page: requests[REQUEST_WORDS * i + 1],
    }
}
