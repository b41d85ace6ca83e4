use rbc_handover::HandoverCount;
use rbc_right::Registrar;

/// The supervision rights that are here, and the handovers that were announced.
#[derive(Debug, Drop)]
pub(crate) struct Desk {
    /// The supervision rights that are here, and in no mission.
    pub(crate) registrar: Registrar,
    /// How many handovers the centre has announced, over all its trains.
    pub(crate) handovers: HandoverCount,
}
