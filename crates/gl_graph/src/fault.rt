use gl_match::{DevId, NetId, TypeId};
use thiserror::Error;

/// Why a circuit or a pattern is not built. Numbers begin at 0.
///
/// A circuit is tried for `BadShape`; then device by device for `BadType`, `BadLength` and `BadNet`;
/// then for `BadRail` and `BadPin`. A pattern is tried device by device for `BadType`, `BadLength` and
/// `BadNet`; then for `BadRole`, `BadPort` and `NoDevice`.
#[derive(Debug, Drop, Error)]
pub enum BuildFault {
    /// A net is out of range: the first such place of the device.
    #[error("1 BadNet device={} place={place}", .device.0)]
    BadNet {
        /// The device.
        device: DevId,
        /// The place.
        place: u32,
    },
    /// The device's type has no shape.
    #[error("2 BadType device={}", .device.0)]
    BadType {
        /// The device.
        device: DevId,
    },
    /// The device has not as many nets as its type has places.
    #[error("3 BadLength device={} has={has} needs={needs}", .device.0)]
    BadLength {
        /// The device.
        device: DevId,
        /// How many nets it has.
        has: u32,
        /// How many places its type has.
        needs: u32,
    },
    /// The shape has more than 64 places or more than 720 turns: the first such shape.
    #[error("4 BadShape kind={}", .kind.0)]
    BadShape {
        /// The type whose shape it is.
        kind: TypeId,
    },
    /// The rail's net is out of range or is that of an earlier rail: the first such rail.
    #[error("5 BadRail rail={rail}")]
    BadRail {
        /// The rail.
        rail: u32,
    },
    /// The pinned net is out of range: the first such one.
    #[error("6 BadPin index={index}")]
    BadPin {
        /// Its place among the pinned nets.
        index: u32,
    },
    /// The net has no place, or what it is said to be does not hold: its rail is out of range or stands
    /// at an earlier net, it is not the port that it says, or it is said to be inner and stands among
    /// the ports. The first such net.
    #[error("7 BadRole net={}", .net.0)]
    BadRole {
        /// The net.
        net: NetId,
    },
    /// The port's net is out of range or is that of an earlier port: the first such port.
    #[error("8 BadPort index={index}")]
    BadPort {
        /// Its place among the ports.
        index: u32,
    },
    /// There is no device.
    #[error("9 NoDevice")]
    NoDevice,
    /// There was no memory.
    #[error("no memory")]
    Memory,
}
