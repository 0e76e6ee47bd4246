//! Request methods.
ghost use Rattle.std.specs.Prelude.{◌≡◌, bytes_eq, codes};
ghost use Rattle.flash_http.specs.Fields as spec;

use http::Method;

fn is(method: &[u8], known: &Method) -> bool
    ensures { result ≡ bytes_eq method.now known.now }
{
    method == known.as_str().as_bytes()
}

// Returns whether the method requests only a head.
pub(crate) fn is_head_only(method: &[u8]) -> bool
    ensures { result ≡ bytes_eq method.now (codes "HEAD") }
{
    is(method, &Method::HEAD)
}

// Returns whether files are served for this method.
pub(crate) fn is_served_method(method: &[u8]) -> bool
    ensures { result ≡ spec.is_served_method method.now }
{
    is(method, &Method::GET) || is_head_only(method)
}

// Returns whether the method is known, but not allowed for files.
pub(crate) fn is_known_method(method: &[u8]) -> bool
    ensures { result ≡ spec.is_known_method method.now }
{
    is(method, &Method::POST)
        || is(method, &Method::PUT)
        || is(method, &Method::DELETE)
        || is(method, &Method::CONNECT)
        || is(method, &Method::OPTIONS)
        || is(method, &Method::TRACE)
        || is(method, &Method::PATCH)
}
