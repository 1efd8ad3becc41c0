//! What follows for the machine from an accepted certificate.

ghost use Rattle.cycle_check.specs.Leaving.{AcceptedIsWithin};

/// A certificate that is accepted for a ROM of 2,048 bytes holds of the machine: from every state with the certificate's program counter at the
/// entry and the latch clear, instruction moves that each start at a listed address with this program counter take no more machine cycles than the
/// limit, whatever EF1 to EF4 are at each move and whatever byte each INP takes, without DMA and interrupts. A call does nothing: the law is its
/// contract.
pub fn accepted_leaves()
    ensures { AcceptedIsWithin }
{}
