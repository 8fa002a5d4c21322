// Faults: one enum for all layers, so that `?` passes a fault up as it is.
ghost use Rattle.std.specs.Prelude.{◌≡◌};
ghost use Rattle.air.specs.Faults.{number_of, address_of};

// What went wrong, by the layer that found it: the fault's number, by which boards, phones and people know it, and the address that it is about.
#[derive(Clone, Copy)]
pub enum Fault {
    Memory { number: u8, address: u16 },
    Call { number: u8, address: u16 },
    Air { number: u8, address: u16 },
    Layout { number: u8, address: u16 },
}

impl Fault {
    pub fn number(self) -> u8
        ensures value { result ≡ number_of self }
    {
        match self {
            Fault::Memory { number, .. }
            | Fault::Call { number, .. }
            | Fault::Air { number, .. }
            | Fault::Layout { number, .. } => number,
        }
    }

    pub fn address(self) -> u16
        ensures value { result ≡ address_of self }
    {
        match self {
            Fault::Memory { address, .. }
            | Fault::Call { address, .. }
            | Fault::Air { address, .. }
            | Fault::Layout { address, .. } => address,
        }
    }
}
