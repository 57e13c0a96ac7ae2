// A writer into a buffer that the caller lends. One walk serves to measure a page and then to
// write it: a writer that is not live only counts.
#[derive(Drop)]
pub struct Writer<'a, const LIVE: bool> {
    pub out: &'a mut [u8],
    // how many bytes are counted or written so far, or none once a byte found no place
    pub at: Option<usize>,
}
