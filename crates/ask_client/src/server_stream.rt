//! A client's end of a connection to a server.

/// A client's end of a connection to a server.
#[derive(Drop)]
pub struct ServerStream<R, W> {
    /// Where the bytes that the server sends are read.
    pub reader: R,
    /// Where the bytes that the server gets are written.
    pub writer: W,
}
