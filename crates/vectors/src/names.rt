// The names of the kinds.

// Sixteen names for each first digit, those of 4 and 6 on two lines.
const NAMES: &str = "\
end ip_csum ip_hdr tcp_hdr udp_hdr icmp_hdr - - - - - - - - - - \
fragment tail datagram - - - - - - - - - - - - - \
client_dgram server_dgram client_dgram_every server_dgram_every - - - - - - - - - - - - \
IcmpFlow::new echo echo_reply echo_many echo_reply_many - - - - - - - - - - - \
TcpFlow::new push_state pop_state client_hole server_hole client_data_segment server_data_segment \
client_ack server_ack client_hdr server_hdr open client_close server_close client_reset server_reset \
client_message server_message client_message_every server_message_every - - - - - - - - - - - - \
Packet::new push_hdr push push_bytes push_slice lower_headroom lower_headroom_for return_headroom \
to_vec to_vec_from into_vec_from hex_dump bit_time get mutate as_slice";

// A kind's name.
pub(crate) fn name(kind: u8) -> &'static str {
    NAMES.split(' ').nth(usize::from(kind)).unwrap_or("")
}
