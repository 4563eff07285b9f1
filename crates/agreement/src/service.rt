ghost use Rattle.std.specs.Prelude.{◌≡◌, ◌<◌, ◌↔◌, IsSome, IfSome};
ghost use Rattle.agreement.specs.Services.{service_number};

use std::fmt;

// The planner's services.
#[derive(Clone, Copy, PartialEq, Eq)]
pub enum Service {
    Read,
    Score,
    Sweep,
    Filter,
    Search,
}

impl Service {
    pub const ALL: [Service; 5] = [
        Service::Read,
        Service::Score,
        Service::Sweep,
        Service::Filter,
        Service::Search,
    ];

    // The service of a number, counted from 0.
    pub fn of(number: usize) -> Option<Service>
        ensures variant { IsSome result ↔ (number < 5) }
        ensures value { IfSome result (λ service. service_number service ≡ number) }
    {
        match number {
            0 => Some(Service::Read),
            1 => Some(Service::Score),
            2 => Some(Service::Sweep),
            3 => Some(Service::Filter),
            4 => Some(Service::Search),
            _ => None,
        }
    }
}

impl fmt::Display for Service {
    fn fmt<W: fmt::Write>(&self, f: &mut fmt::Formatter<W>) -> fmt::Result {
        f.write_str(match self {
            Service::Read => "read",
            Service::Score => "score",
            Service::Sweep => "sweep",
            Service::Filter => "filter",
            Service::Search => "search",
        })
    }
}
