//! The pages that take no memory.

ghost use Rattle.std.specs.Prelude.{◌≡◌, false, true};
ghost use Rattle.http_pages.specs.Pages.{page_text, status_page};

/// The page of 503 on a connection that continues.
pub const SERVICE_UNAVAILABLE: &[u8] = b"HTTP/1.1 503 Service Unavailable\r\n\
    content-type: application/json\r\n\
    content-length: 13\r\n\
    \r\n\
    {\"error\":503}";

/// The page of 503 that is the last on its connection.
pub const SERVICE_UNAVAILABLE_LAST: &[u8] = b"HTTP/1.1 503 Service Unavailable\r\n\
    content-type: application/json\r\n\
    content-length: 13\r\n\
    connection: close\r\n\
    \r\n\
    {\"error\":503}";

/// The page of 507 on a connection that continues.
pub const INSUFFICIENT_STORAGE: &[u8] = b"HTTP/1.1 507 Insufficient Storage\r\n\
    content-type: application/json\r\n\
    content-length: 13\r\n\
    \r\n\
    {\"error\":507}";

/// The page of 507 that is the last on its connection.
pub const INSUFFICIENT_STORAGE_LAST: &[u8] = b"HTTP/1.1 507 Insufficient Storage\r\n\
    content-type: application/json\r\n\
    content-length: 13\r\n\
    connection: close\r\n\
    \r\n\
    {\"error\":507}";

/// Does nothing: its contract is that each constant is the page that `page` appends for its status.
pub fn constant_pages()
    ensures service_unavailable { SERVICE_UNAVAILABLE.now ≡ page_text (status_page 503) false }
    ensures service_unavailable_last { SERVICE_UNAVAILABLE_LAST.now ≡ page_text (status_page 503) true }
    ensures insufficient_storage { INSUFFICIENT_STORAGE.now ≡ page_text (status_page 507) false }
    ensures insufficient_storage_last { INSUFFICIENT_STORAGE_LAST.now ≡ page_text (status_page 507) true }
{
    farm_http::answer_laws();
}
