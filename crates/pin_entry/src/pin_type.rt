// The types of PINs and PUKs, and which PUK is whose.
ghost use Rattle.std.specs.Prelude.{◌≡◌, ◌+◌, ◌<◌};
ghost use Rattle.pin_entry.specs.PinTable.{puk_of, pin_of};
ghost use Rattle.pin_entry.specs.PinTypes.{number_of, Numbers, number_or_none};

// MBIM_PIN_TYPE, without None.
#[derive(Clone, Copy)]
pub enum PinType {
    Custom = 1,
    Pin1 = 2,
    Pin2 = 3,
    DeviceSimPin = 4,
    DeviceFirstSimPin = 5,
    NetworkPin = 6,
    NetworkSubsetPin = 7,
    ServiceProviderPin = 8,
    CorporatePin = 9,
    SubsidyLock = 10,
    Puk1 = 11,
    Puk2 = 12,
    DeviceFirstSimPuk = 13,
    NetworkPuk = 14,
    NetworkSubsetPuk = 15,
    ServiceProviderPuk = 16,
    CorporatePuk = 17,
}

// A number that is no type of a PIN or a PUK.
#[derive(Clone, Copy)]
pub struct NoPinType(pub u32);

impl TryFrom<u32> for PinType {
    type Error = NoPinType;

    ghost try_from_gives = { Numbers };

    fn try_from(number: u32) -> Result<PinType, NoPinType> {
        match number {
            1 => Ok(PinType::Custom),
            2 => Ok(PinType::Pin1),
            3 => Ok(PinType::Pin2),
            4 => Ok(PinType::DeviceSimPin),
            5 => Ok(PinType::DeviceFirstSimPin),
            6 => Ok(PinType::NetworkPin),
            7 => Ok(PinType::NetworkSubsetPin),
            8 => Ok(PinType::ServiceProviderPin),
            9 => Ok(PinType::CorporatePin),
            10 => Ok(PinType::SubsidyLock),
            11 => Ok(PinType::Puk1),
            12 => Ok(PinType::Puk2),
            13 => Ok(PinType::DeviceFirstSimPuk),
            14 => Ok(PinType::NetworkPuk),
            15 => Ok(PinType::NetworkSubsetPuk),
            16 => Ok(PinType::ServiceProviderPuk),
            17 => Ok(PinType::CorporatePuk),
            _ => Err(NoPinType(number)),
        }
    }
}

impl From<PinType> for u32 {
    fn from(pin_type: PinType) -> u32
        ensures { result ≡ number_of pin_type }
    {
        pin_type as u32
    }
}

impl PinType {
    // The place of its row in a table.
    pub fn place(self) -> usize
        ensures value { result + 1 ≡ number_of self }
        ensures within { result < 17 }
    {
        self as usize - 1
    }

    // The PUK of a PIN.
    #[tactic(auto, unfolding(crate::specs::PinTable::puk_of))]
    pub fn puk(self) -> Option<PinType>
        ensures { number_or_none result ≡ puk_of (number_of self) }
    {
        match self {
            PinType::Pin1 => Some(PinType::Puk1),
            PinType::Pin2 => Some(PinType::Puk2),
            PinType::DeviceFirstSimPin => Some(PinType::DeviceFirstSimPuk),
            PinType::NetworkPin => Some(PinType::NetworkPuk),
            PinType::NetworkSubsetPin => Some(PinType::NetworkSubsetPuk),
            PinType::ServiceProviderPin => Some(PinType::ServiceProviderPuk),
            PinType::CorporatePin => Some(PinType::CorporatePuk),
            _ => None,
        }
    }

    // The PIN of a PUK: a list of its own, as in `PinTable`, since what is claimed compares the two
    // (`pairs_agree`).
    #[tactic(auto, unfolding(crate::specs::PinTable::pin_of))]
    pub fn pin(self) -> Option<PinType>
        ensures { number_or_none result ≡ pin_of (number_of self) }
    {
        match self {
            PinType::Puk1 => Some(PinType::Pin1),
            PinType::Puk2 => Some(PinType::Pin2),
            PinType::DeviceFirstSimPuk => Some(PinType::DeviceFirstSimPin),
            PinType::NetworkPuk => Some(PinType::NetworkPin),
            PinType::NetworkSubsetPuk => Some(PinType::NetworkSubsetPin),
            PinType::ServiceProviderPuk => Some(PinType::ServiceProviderPin),
            PinType::CorporatePuk => Some(PinType::CorporatePin),
            _ => None,
        }
    }
}
