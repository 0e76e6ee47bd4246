//! Media types and scripts, by the end of a file's name.
ghost use Rattle.std.specs.Prelude.{◌≡◌, nat_eq};
ghost use Rattle.std.specs.List.{ends_with};
ghost use Rattle.flash_http.specs.MediaType as spec;

/// The media type of a response (RFC 9110, section 8.3).
#[derive(Clone, Copy, Debug, PartialEq, Eq)]
pub enum MediaType {
    Html,
    PlainText,
    Css,
    JavaScript,
    Json,
    Png,
    Jpeg,
    OctetStream,
}

fn ends_with(name: &str, end: &str) -> bool
    ensures { result ≡ ends_with nat_eq name.now end.now }
{
    name.as_bytes().ends_with(end.as_bytes())
}

// Returns whether the name is that of a script.
pub(crate) fn is_script(name: &str) -> bool
    ensures { result ≡ spec.is_script name.now }
{
    ends_with(name, ".cgi")
}

impl MediaType {
    /// The media type of a file by the suffix of its name, which is case-sensitive.
    pub fn of_name(name: &str) -> MediaType
        ensures { result ≡ spec.media_type name.now }
    {
        if ends_with(name, ".html") {
            MediaType::Html
        } else if ends_with(name, ".txt") {
            MediaType::PlainText
        } else if ends_with(name, ".css") {
            MediaType::Css
        } else if ends_with(name, ".js") {
            MediaType::JavaScript
        } else if ends_with(name, ".json") {
            MediaType::Json
        } else if ends_with(name, ".png") {
            MediaType::Png
        } else if ends_with(name, ".jpg") {
            MediaType::Jpeg
        } else {
            MediaType::OctetStream
        }
    }

    // The media type, as text of a head.
    pub(crate) fn as_str(self) -> &'static str
        ensures { result.now ≡ spec.media_text self }
    {
        match self {
            MediaType::Html => "text/html",
            MediaType::PlainText => "text/plain",
            MediaType::Css => "text/css",
            MediaType::JavaScript => "text/javascript",
            MediaType::Json => "application/json",
            MediaType::Png => "image/png",
            MediaType::Jpeg => "image/jpeg",
            MediaType::OctetStream => "application/octet-stream",
        }
    }
}
