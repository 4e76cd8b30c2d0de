// The tables of the messages that are read, as the reader of messages takes them: for each row the number of the field, its kind, and how many
// numbers the table of the message that it holds takes. Numbers that a writer needs too have names.
ghost use Rattle.std.specs.Prelude.{◌≡◌};
ghost use Rattle.tables.specs.Found.{rows_of};
ghost use Rattle.csmp.specs.Tables.{redirect, session, report_subscribe, group, transfer_request, image_block, load_request, image_hash, signature_validity, signature};

use message::{BOOL, BYTES, PART, STRING, STRINGS, UINT32};

// Of a SessionID.
pub const SESSION_ID: u32 = 1;

// Of a ReportSubscribe.
pub const INTERVAL: u32 = 1;

pub const TLV_IDS: u32 = 2;

// Of a group.
pub const GROUP_TYPE: u32 = 1;

pub const GROUP_ID: u32 = 2;

// Of a FirmwareImageInfo.
pub const IMAGE_INDEX: u32 = 1;

pub const IMAGE_FILE_HASH: u32 = 2;

pub const IMAGE_LOAD_TIME: u32 = 10;

// 6 NMSRedirectRequest: url, immediate.
pub fn redirect() -> [u32; 6]
    ensures { result ≡ rows_of redirect }
{
    [1, STRING, 0, 2, BOOL, 0]
}

// 7 SessionID: id.
pub fn session() -> [u32; 3]
    ensures { result ≡ rows_of session }
{
    [SESSION_ID, STRING, 0]
}

// 13 ReportSubscribe: interval, tlvid, intervalHeartBeat, tlvidHeartBeat.
#[rattlefmt::skip]
pub fn report_subscribe() -> [u32; 12]
    ensures { result ≡ rows_of report_subscribe }
{
    [
        INTERVAL, UINT32, 0,
        TLV_IDS, STRINGS, 0,
        3, UINT32, 0,
        4, STRINGS, 0,
    ]
}

// 55 GroupAssign, 57 GroupMatch, 58 GroupInfo: type, id.
pub fn group() -> [u32; 6]
    ensures { result ≡ rows_of group }
{
    [GROUP_TYPE, UINT32, 0, GROUP_ID, UINT32, 0]
}

// 65 TransferRequest: hwInfo (hwId, vendorHwId), fileHash, fileName, version, fileSize, blockSize.
#[rattlefmt::skip]
pub fn transfer_request() -> [u32; 24]
    ensures { result ≡ rows_of transfer_request }
{
    [
        1, PART, 6,
        1, STRING, 0,
        2, STRING, 0,
        2, BYTES, 0,
        3, STRING, 0,
        4, STRING, 0,
        5, UINT32, 0,
        6, UINT32, 0,
    ]
}

// 67 ImageBlock: fileHash, blockNum, blockData. The draft numbers the data 4.
pub fn image_block() -> [u32; 9]
    ensures { result ≡ rows_of image_block }
{
    [1, BYTES, 0, 2, UINT32, 0, 4, BYTES, 0]
}

// 68 LoadRequest: fileHash, loadTime.
pub fn load_request() -> [u32; 6]
    ensures { result ≡ rows_of load_request }
{
    [1, BYTES, 0, 2, UINT32, 0]
}

// 69 CancelLoadRequest, 70 SetBackupRequest: fileHash.
pub fn image_hash() -> [u32; 3]
    ensures { result ≡ rows_of image_hash }
{
    [1, BYTES, 0]
}

// 76 SignatureValidity: notBefore, notAfter.
pub fn signature_validity() -> [u32; 6]
    ensures { result ≡ rows_of signature_validity }
{
    [1, UINT32, 0, 2, UINT32, 0]
}

// 77 Signature: value.
pub fn signature() -> [u32; 3]
    ensures { result ≡ rows_of signature }
{
    [1, BYTES, 0]
}
