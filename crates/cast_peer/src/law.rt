//! A law of the definitions about peers. The function does nothing; its contract is the law.
ghost use Rattle.cast_peer.specs.Law.{ArePeersLinked};

/// Peers have linked logs if they took only packets that peers of the group made. It doesn't matter what was lost,
/// repeated, reordered or cut off, or which peers stopped for good. So the clauses of `assemble` hold for them.
pub fn links_peers()
    ensures { ArePeersLinked }
{}
