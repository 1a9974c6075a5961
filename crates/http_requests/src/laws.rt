//! What follows from the definitions.

ghost use Rattle.http_requests.specs.Asking.{AskedIsFirst};
ghost use Rattle.http_requests.specs.Paths.{PathsNameResources};

/// Does nothing: its contract is what the routes mean in words, and that what a request asks is the first of the list that holds.
pub fn request_laws()
    ensures paths { PathsNameResources }
    ensures first { AskedIsFirst }
{}
