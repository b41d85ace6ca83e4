//! NID_MESSAGE: which messages are read and written, and how long each is at least (SUBSET-026 8.6, 8.7).

ghost use Rattle.std.specs.Prelude.{◌≡◌, IfOk};
ghost use Rattle.rbc_msgs.specs.Numbers.{train_of_number, train_number_value, least_train_length, track_of_number};
ghost use Rattle.rbc_msgs.specs.Numbers.{track_number_value, least_track_length};

use crate::fault::MsgFault;

/// NID_MESSAGE of a train's message.
#[derive(Clone, Copy, Debug, PartialEq, Eq)]
pub(crate) enum TrainNumber {
    TrainData = 129,
    Request = 132,
    Report = 136,
    ShorteningGranted = 137,
    ShorteningRejected = 138,
    EndOfMission = 150,
    InitiationOfSession = 155,
    TerminationOfSession = 156,
    StartOfMission = 157,
    SessionEstablished = 159,
}

impl TrainNumber {
    #[tactic(auto, unfolding(crate::specs::Numbers::train_of_number))]
    #[inline(always)]
    pub(crate) fn of(number: u64) -> Result<TrainNumber, MsgFault>
        ensures exact { result ≡ train_of_number number }
        ensures value { IfOk result (λ k. train_number_value k ≡ number) }
    {
        match number {
            129 => Ok(TrainNumber::TrainData),
            132 => Ok(TrainNumber::Request),
            136 => Ok(TrainNumber::Report),
            137 => Ok(TrainNumber::ShorteningGranted),
            138 => Ok(TrainNumber::ShorteningRejected),
            150 => Ok(TrainNumber::EndOfMission),
            155 => Ok(TrainNumber::InitiationOfSession),
            156 => Ok(TrainNumber::TerminationOfSession),
            157 => Ok(TrainNumber::StartOfMission),
            159 => Ok(TrainNumber::SessionEstablished),
            _ => Err(MsgFault::UnknownNumber),
        }
    }

    /// NID_MESSAGE.
    #[inline(always)]
    pub(crate) fn value(self) -> u64
        ensures { result ≡ train_number_value self }
    {
        self as u64
    }

    /// The least L_MESSAGE.
    #[inline(always)]
    pub(crate) fn least_length(self) -> usize
        ensures { result ≡ least_train_length self }
    {
        match self {
            TrainNumber::ShorteningGranted | TrainNumber::ShorteningRejected => 14,
            _ => 10,
        }
    }
}

/// NID_MESSAGE of a centre's message.
#[derive(Clone, Copy, Debug, PartialEq, Eq)]
pub(crate) enum TrackNumber {
    MovementAuthority = 3,
    DataAcknowledged = 8,
    ShorteningRequest = 9,
    GeneralMessage = 24,
    SystemVersion = 32,
    TerminationAcknowledged = 39,
    TrainRejected = 40,
    TrainAccepted = 41,
}

impl TrackNumber {
    #[tactic(auto, unfolding(crate::specs::Numbers::track_of_number))]
    #[inline(always)]
    pub(crate) fn of(number: u64) -> Result<TrackNumber, MsgFault>
        ensures exact { result ≡ track_of_number number }
        ensures value { IfOk result (λ k. track_number_value k ≡ number) }
    {
        match number {
            3 => Ok(TrackNumber::MovementAuthority),
            8 => Ok(TrackNumber::DataAcknowledged),
            9 => Ok(TrackNumber::ShorteningRequest),
            24 => Ok(TrackNumber::GeneralMessage),
            32 => Ok(TrackNumber::SystemVersion),
            39 => Ok(TrackNumber::TerminationAcknowledged),
            40 => Ok(TrackNumber::TrainRejected),
            41 => Ok(TrackNumber::TrainAccepted),
            _ => Err(MsgFault::UnknownNumber),
        }
    }

    /// NID_MESSAGE.
    #[inline(always)]
    pub(crate) fn value(self) -> u64
        ensures { result ≡ track_number_value self }
    {
        self as u64
    }

    /// The least L_MESSAGE.
    #[inline(always)]
    pub(crate) fn least_length(self) -> usize
        ensures { result ≡ least_track_length self }
    {
        match self {
            TrackNumber::DataAcknowledged => 14,
            TrackNumber::SystemVersion => 11,
            _ => 10,
        }
    }
}
