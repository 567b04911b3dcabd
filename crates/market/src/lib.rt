// Services, regions and a constraint's mode: what the numbers of a record stand for, and the words of the market's papers.
// Raise or lower, the energy that a cost is shared by, the region's bit and name and the mode's data are asked here and nowhere else.
#![tactic(auto)]

ghost use Rattle.std.specs.Prelude.{◌≡◌, ◌∷◌, ◌-◌, ◌^◌, ◌≤◌, ◌<◌, length};
ghost use Rattle.market.specs.Kinds.{service_numbers, region_numbers, is_service, raises, regulates, basis_of, picked, bit_set, mode_with};
ghost use Rattle.market.specs.Inner.Masks.{regions_in};
ghost use Rattle.market.specs.Words.{region_name, payment_type_name, restart_name};

// A market frequency service, by its number.
#[derive(Clone, Copy)]
pub struct Service {
    pub number: u8,
}

impl Service {
    pub const VERY_FAST_RAISE: Service = Service { number: 1 };

    pub const VERY_FAST_LOWER: Service = Service { number: 2 };

    pub const FAST_RAISE: Service = Service { number: 3 };

    pub const FAST_LOWER: Service = Service { number: 4 };

    pub const SLOW_RAISE: Service = Service { number: 5 };

    pub const SLOW_LOWER: Service = Service { number: 6 };

    pub const DELAYED_RAISE: Service = Service { number: 7 };

    pub const DELAYED_LOWER: Service = Service { number: 8 };

    pub const REGULATION_RAISE: Service = Service { number: 9 };

    pub const REGULATION_LOWER: Service = Service { number: 10 };

    pub fn of(number: u8) -> Service
        ensures { result.number ≡ number }
    {
        Service { number }
    }

    // Each service's number, in the order of the rules. Nothing calls it: it holds the constants to the definition.
    pub fn numbers() -> [u8; 10]
        ensures { result ≡ service_numbers }
    {
        [
            Self::VERY_FAST_RAISE.number,
            Self::VERY_FAST_LOWER.number,
            Self::FAST_RAISE.number,
            Self::FAST_LOWER.number,
            Self::SLOW_RAISE.number,
            Self::SLOW_LOWER.number,
            Self::DELAYED_RAISE.number,
            Self::DELAYED_LOWER.number,
            Self::REGULATION_RAISE.number,
            Self::REGULATION_LOWER.number,
        ]
    }

    // One of the ten.
    pub fn is_known(self) -> bool
        ensures { result ≡ is_service self.number }
    {
        (Self::VERY_FAST_RAISE.number <= self.number)
            & (self.number <= Self::REGULATION_LOWER.number)
    }

    // Raise services have odd numbers, lower ones even.
    pub fn is_raise(self) -> bool
        ensures { result ≡ raises self.number }
    {
        self.number % 2 == 1
    }

    // Regulation raise and lower stand last.
    pub fn is_regulation(self) -> bool
        ensures { result ≡ regulates self.number }
    {
        Self::REGULATION_RAISE.number <= self.number
    }
}

// By which energy a cost is shared: that consumed (ACE), that sent out (ASOE), or the residual of both.
#[derive(Clone, Copy)]
pub enum Basis {
    Ace,
    Asoe,
    Residual,
}

impl Basis {
    // Regulation is shared by residual energy, a raise contingency by ASOE, a lower one by ACE.
    pub fn of(service: Service) -> Basis
        ensures { result ≡ basis_of service.number }
    {
        if service.is_regulation() {
            return Basis::Residual;
        }
        if service.is_raise() {
            return Basis::Asoe;
        }
        Basis::Ace
    }

    // Of an ACE, an ASOE and a residual energy, that of this kind. All three are handed over, so that choosing wants no branch, which the
    // processor would often guess wrong where the kind differs from turn to turn.
    pub fn pick(self, ace: u64, asoe: u64, residual: u64) -> u64
        ensures { result ≡ picked self ace asoe residual }
    {
        match self {
            Basis::Ace => ace,
            Basis::Asoe => asoe,
            Basis::Residual => residual,
        }
    }
}

// A region of the market, by its number.
#[derive(Clone, Copy)]
pub struct Region {
    pub number: u8,
}

impl Region {
    pub const NSW1: Region = Region { number: 0 };

    pub const QLD1: Region = Region { number: 1 };

    pub const SA1: Region = Region { number: 2 };

    pub const TAS1: Region = Region { number: 3 };

    pub const VIC1: Region = Region { number: 4 };

    pub const COUNT: usize = 5;

    pub fn of(number: u8) -> Region
        ensures { result.number ≡ number }
    {
        Region { number }
    }

    // Each region's number, in the order of the rules. Nothing calls it: it holds the constants to the definition.
    pub fn numbers() -> [u8; Self::COUNT]
        ensures { result ≡ region_numbers }
    {
        [
            Self::NSW1.number,
            Self::QLD1.number,
            Self::SA1.number,
            Self::TAS1.number,
            Self::VIC1.number,
        ]
    }

    // Its word in the market's papers.
    pub fn name(self) -> &'static [u8]
        requires { self.number < 5 }
        ensures { (result.now ≡ region_name self.number) × (length result.now ≤ 12) }
    {
        match self.number {
            0 => b"NSW1",
            1 => b"QLD1",
            2 => b"SA1",
            3 => b"TAS1",
            _ => b"VIC1",
        }
    }

    // Whether the region's bit is set in a constraint's regions.
    pub fn is_in(self, mask: u8) -> bool
        requires { self.number < 5 }
        ensures { result ≡ bit_set mask self.number }
    {
        mask >> self.number & 1 == 1
    }

    // The mask of this one region.
    pub fn bit(self) -> u8
        requires { self.number < 5 }
        ensures { result ≡ 2 ^ self.number }
    {
        1 << self.number
    }

    // How many regions a mask has, by its bits that belong to the five.
    pub fn count_in(mask: u8) -> u32
        ensures { result ≡ length (regions_in mask) }
    {
        u8::count_ones(mask & 31)
    }

    // The first region of a mask is that of its lowest set bit, and without this bit it is the mask of those behind.
    pub fn first_in(mask: u8) -> Step
        requires { 0 < length (regions_in mask) }
        ensures { (regions_in mask ≡ result.region.number ∷ regions_in result.rest) × (result.rest ≡ mask - 2 ^ result.region.number) }
    {
        let number = u8::trailing_zeros(mask) as u8;
        let rest = mask & (mask - 1);
        Step {
            region: Region { number },
            rest,
        }
    }
}

// A step of the walk over a mask's regions, which go from the lowest bit up: one region, and the mask of those behind it.
#[derive(Clone, Copy)]
pub struct Step {
    pub region: Region,
    pub rest: u8,
}

// What a restart contract's payment is for, by its number.
#[derive(Clone, Copy)]
pub struct PaymentType {
    pub number: u8,
}

impl PaymentType {
    pub const AVAILABILITY: u8 = 0;

    pub const ENABLEMENT: u8 = 1;

    pub const COMPENSATION: u8 = 2;

    pub fn of(number: u8) -> PaymentType
        ensures { result.number ≡ number }
    {
        PaymentType { number }
    }

    // Its word in the market's papers.
    pub fn name(self) -> &'static [u8]
        requires { self.number < 3 }
        ensures { (result.now ≡ payment_type_name self.number) × (length result.now ≤ 12) }
    {
        match self.number {
            Self::AVAILABILITY => b"AVAILABILITY",
            Self::ENABLEMENT => b"ENABLEMENT",
            _ => b"COMPENSATION",
        }
    }
}

// The service that restart contracts are for.
pub fn restart() -> &'static [u8]
    ensures { (result.now ≡ restart_name) × (length result.now ≤ 12) }
{
    b"RESTART"
}

// How a constraint's cost is shared. Only a factored one has a price, a response and a usage.
#[derive(Clone, Copy)]
pub enum Mode {
    Contingency,
    Factored {
        price: u32,
        response: u32,
        usage: u32,
    },
    Default,
    Unknown,
}

impl Mode {
    pub const CONTINGENCY: u8 = 0;

    pub const FACTORED: u8 = 1;

    pub const DEFAULT: u8 = 2;

    pub fn of(number: u8, price: u32, response: u32, usage: u32) -> Mode
        ensures { result ≡ mode_with number price response usage }
    {
        match number {
            Self::CONTINGENCY => Mode::Contingency,
            Self::FACTORED => Mode::Factored {
                price,
                response,
                usage,
            },
            Self::DEFAULT => Mode::Default,
            _ => Mode::Unknown,
        }
    }
}
