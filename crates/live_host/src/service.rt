//! The services of the host.

use smoltcp_socket::wire::IpListenEndpoint;

/// What a connection to the host is for.
#[derive(Clone, Copy, PartialEq, Eq)]
pub enum Service {
    /// Sends back what comes (RFC 862).
    Echo,
    /// Takes what comes (RFC 863).
    Discard,
    /// Sends lines of characters until the peer closes (RFC 864).
    Chargen,
    /// Answers one request by HTTP/1.1 (RFC 9110).
    Http,
}

/// All services.
pub const SERVICES: [Service; 4] = [
    Service::Echo,
    Service::Discard,
    Service::Chargen,
    Service::Http,
];

impl Service {
    /// The port that the service listens on, at both addresses.
    pub fn endpoint(self) -> IpListenEndpoint {
        let port = match self {
            Service::Echo => 7,
            Service::Discard => 9,
            Service::Chargen => 19,
            Service::Http => 80,
        };
        IpListenEndpoint { addr: None, port }
    }

    /// The service that has this port.
    pub fn of_port(port: u16) -> Option<Service> {
        match port {
            7 => Some(Service::Echo),
            9 => Some(Service::Discard),
            19 => Some(Service::Chargen),
            80 => Some(Service::Http),
            _ => None,
        }
    }
}
