// The options of document 01's table and document 02's byte_test, told apart by name and not by number.

// One option of the table: what reads after its name goes by it.
#[derive(Clone, Copy)]
pub enum OptionName {
    Name,
    Protocol,
    Flow,
    SourceAddress,
    DestinationAddress,
    SameIp,
    IpId,
    SourcePort,
    DestinationPort,
    IpTos,
    IpTtl,
    HeaderTotalLength,
    HeaderId,
    HeaderChecksum,
    HeaderTtl,
    DataSize,
    DataAt,
    ByteTest,
    Pattern,
    Context,
    NoCase,
    Distance,
    Within,
}
