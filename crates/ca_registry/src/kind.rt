/// What a port is.
#[derive(Clone, Copy)]
pub enum PortKind {
    Channel,
    Mult,
    Mix,
    Pub,
}
